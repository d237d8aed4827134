//! The texts of kinds and limits.

ghost use Rattle.std.specs.Prelude.{◌≡◌, option_map};
ghost use Rattle.text_kinds.specs.Texts.{limit_seen, limit_text, kind_name};

use crate::found::Kind;

/// A limit's name, and its number.
#[derive(Clone, Copy, Drop)]
pub struct LimitText {
    pub name: &'static str,
    pub number: u32,
}

/// The name of a kind.
pub fn kind_name(kind: Kind) -> &'static str
    ensures { result.now ≡ kind_name kind }
{
    match kind {
        Kind::BadByte => "BadByte",
        Kind::OpenString => "OpenString",
        Kind::BadEscape => "BadEscape",
        Kind::LongNumber => "LongNumber",
        Kind::Expected => "Expected",
        Kind::ModuleShape => "ModuleShape",
        Kind::UnknownOperation => "UnknownOperation",
        Kind::RedefinedValue => "RedefinedValue",
        Kind::RedefinedBlock => "RedefinedBlock",
        Kind::RedefinedAlias => "RedefinedAlias",
        Kind::UnknownAlias => "UnknownAlias",
        Kind::UnsupportedType => "UnsupportedType",
        Kind::UnsupportedAttr => "UnsupportedAttr",
        Kind::IntegerRange => "IntegerRange",
        Kind::DuplicateAttr => "DuplicateAttr",
        Kind::TypeCount => "TypeCount",
        Kind::UseType => "UseType",
        Kind::ResultIndex => "ResultIndex",
        Kind::UndefinedValue => "UndefinedValue",
        Kind::UndefinedBlock => "UndefinedBlock",
        Kind::RegionDepth => "RegionDepth",
        Kind::TypeDepth => "TypeDepth",
        Kind::AttrDepth => "AttrDepth",
        Kind::Parts => "Parts",
        Kind::Functions => "Functions",
        Kind::Blocks => "Blocks",
        Kind::Operands => "Operands",
        Kind::Operations => "Operations",
        Kind::ShardFull => "ShardFull",
    }
}

/// The limit that a kind passes, if it is one of a limit.
pub fn limit_text(kind: Kind) -> Option<LimitText>
    ensures { option_map limit_seen result ≡ limit_text kind }
{
    match kind {
        Kind::RegionDepth => limit("region depth", 64),
        Kind::TypeDepth => limit("type depth", 16),
        Kind::AttrDepth => limit("attribute depth", 16),
        Kind::Parts => limit("parts", 16777216),
        Kind::Functions => limit("functions", 65536),
        Kind::Blocks => limit("blocks", 4096),
        Kind::Operands => limit("operands", 4096),
        Kind::Operations => limit("operations", 262144),
        _ => None,
    }
}

fn limit(name: &'static str, number: u32) -> Option<LimitText>
    ensures { option_map limit_seen result ≡ Some (name.now, number) }
{
    Some(LimitText { name, number })
}
