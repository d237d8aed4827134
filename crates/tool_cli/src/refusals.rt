//! How a refusal of the text, or of the module, is told.

ghost use Rattle.std.specs.Prelude.{◌≡◌, ◌++◌, codes, decimal, IfOk, option_copied, option_map};
ghost use Rattle.std.specs.List.{slice_get};
ghost use Rattle.ordered_diags.specs.Failures.{symbol_text};
ghost use Rattle.tool_cli.specs.Refusals as told;
ghost use Rattle.tool_cli.specs.Refusals.{kind_name, limit_of, refused};
ghost use Rattle.tool_cli.specs.Told.{refusal};

use crate::prepared::{Prepared, refuse_line};
use crate::status::Status;
use ir_verifier::BrokenRule;
use rule_facts::name_in;
use rule_model::Rule;
use sqlite_items::at;
use std::alloc::Global;
use text_kinds::Kind;
use tree_model::{Bytes, FuncTree, ModuleTree, NoMemory};
use tree_text::put_name;

/// The name and the number of a limit that a text passes.
fn limit_of(kind: Kind) -> Option<&'static str>
    ensures { option_copied result ≡ limit_of kind }
{
    match kind {
        Kind::RegionDepth => Some("region depth 64"),
        Kind::TypeDepth => Some("type depth 16"),
        Kind::AttrDepth => Some("attribute depth 16"),
        Kind::Parts => Some("parts 16777216"),
        Kind::Functions => Some("functions 65536"),
        Kind::Blocks => Some("blocks 4096"),
        Kind::Operands => Some("operands 4096"),
        Kind::Operations => Some("operations 262144"),
        _ => None,
    }
}

/// The name of a kind.
fn kind_name(kind: Kind) -> &'static str
    ensures { result.now ≡ kind_name kind }
{
    match kind {
        Kind::BadByte => "BadByte",
        Kind::OpenString => "OpenString",
        Kind::BadEscape => "BadEscape",
        Kind::LongNumber => "LongNumber",
        Kind::Expected => "Expected",
        Kind::ModuleShape => "ModuleShape",
        Kind::UnknownOperation => "UnknownOperation",
        Kind::RedefinedValue => "RedefinedValue",
        Kind::RedefinedBlock => "RedefinedBlock",
        Kind::RedefinedAlias => "RedefinedAlias",
        Kind::UnknownAlias => "UnknownAlias",
        Kind::UnsupportedType => "UnsupportedType",
        Kind::UnsupportedAttr => "UnsupportedAttr",
        Kind::IntegerRange => "IntegerRange",
        Kind::DuplicateAttr => "DuplicateAttr",
        Kind::TypeCount => "TypeCount",
        Kind::UseType => "UseType",
        Kind::ResultIndex => "ResultIndex",
        Kind::UndefinedValue => "UndefinedValue",
        Kind::UndefinedBlock => "UndefinedBlock",
        Kind::RegionDepth => "RegionDepth",
        Kind::TypeDepth => "TypeDepth",
        Kind::AttrDepth => "AttrDepth",
        Kind::Parts => "Parts",
        Kind::Functions => "Functions",
        Kind::Blocks => "Blocks",
        Kind::Operands => "Operands",
        Kind::Operations => "Operations",
        Kind::ShardFull => "ShardFull",
    }
}

/// The reply to a text that is refused: a limit by its name and number, another kind by its byte and its name.
pub fn refused(alloc: Global, place: usize, kind: Kind) -> Result<Prepared, NoMemory>
    ensures { IfOk result (λ p. p ≡ refused place kind) }
{
    match limit_of(kind) {
        Some(limit) => limited(alloc, limit),
        None => refused_at(alloc, place, kind_name(kind)),
    }
}

fn limited(alloc: Global, limit: &str) -> Result<Prepared, NoMemory>
    ensures { IfOk result (λ p. p ≡ refusal Status.Limit (codes "limit: " ++ limit.now)) }
{
    let mut line = Bytes::new(alloc);
    line.put(b"limit: ")?;
    line.put(limit.as_bytes())?;
    refuse_line(alloc, Status::Limit, line)
}

fn refused_at(alloc: Global, place: usize, name: &str) -> Result<Prepared, NoMemory>
    ensures { IfOk result (λ p. p ≡ refusal Status.Refused (codes "refused: text at " ++ decimal place ++ codes ": " ++ name.now)) }
{
    let mut line = Bytes::new(alloc);
    line.put(b"refused: text at ")?;
    line.put_number(place as u64)?;
    line.put(b": ")?;
    line.put(name.as_bytes())?;
    refuse_line(alloc, Status::Refused, line)
}

/// The name of a rule.
fn rule_name(rule: Rule) -> &'static str
    ensures { result.now ≡ told.rule_name rule }
{
    match rule {
        Rule::Operands => "Operands",
        Rule::Results => "Results",
        Rule::Regions => "Regions",
        Rule::Attribute => "Attribute",
        Rule::Successors => "Successors",
        Rule::Terminator => "Terminator",
        Rule::Signature => "Signature",
        Rule::Symbol => "Symbol",
        Rule::Reserved => "Reserved",
        Rule::ValueType => "ValueType",
        Rule::Defined => "Defined",
        Rule::OwnUse => "OwnUse",
    }
}

/// The name of a function, an empty one where it has none.
fn name_of(func: &FuncTree) -> &[u8]
    ensures { result.now ≡ told.name_of func.now }
{
    match name_in(func.op.props.as_slice()) {
        Some(name) => name,
        None => &[],
    }
}

/// The name of the function at this place of a module.
fn function_name(tree: &ModuleTree, place: usize) -> &[u8]
    ensures { result.now ≡ told.function_name (slice_get tree.now.funcs place) }
{
    match at(tree.funcs.as_slice(), place) {
        Some(func) => name_of(func),
        None => &[],
    }
}

/// The function and the operation that are refused.
fn place_of(alloc: Global, name: &[u8], operation: usize) -> Result<Bytes, NoMemory>
    ensures { IfOk result (λ line. line ≡ codes "refused: " ++ symbol_text name.now ++ codes " operation " ++ decimal operation ++ codes ": ") }
{
    let mut line = Bytes::new(alloc);
    line.put(b"refused: @")?;
    put_name(&mut line, name)?;
    line.put(b" operation ")?;
    line.put_number(operation as u64)?;
    line.put(b": ")?;
    Ok(line)
}

/// The reply to a module that breaks a rule: the function, the number of the operation and the rule.
pub fn broken(alloc: Global, tree: &ModuleTree, rule: BrokenRule) -> Result<Prepared, NoMemory>
    ensures { IfOk result (λ p. p ≡ told.broken tree.now rule) }
{
    let name = function_name(tree, rule.function);
    let mut line = place_of(alloc, name, rule.operation)?;
    line.put(rule_name(rule.rule).as_bytes())?;
    refuse_line(alloc, Status::Refused, line)
}
