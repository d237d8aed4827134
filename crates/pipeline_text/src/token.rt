//! Tokens of a pipeline text, and which of them fit at a place.

ghost use Rattle.std.specs.Prelude.{◌≡◌};
ghost use Rattle.pipeline_text.specs.Passes.{may_stand, has_width};
ghost use Rattle.pipeline_text.specs.Kinds.{fits};

use crate::pass::{Anchor, PassName};

/// What a token is.
#[derive(Clone, Copy)]
pub enum Kind {
    Module,
    OnEach(Anchor),
    Pass(PassName),
    Width,
    Zero,
    SixtyFour,
    OtherWord,
    Open,
    Close,
    OpenBrace,
    CloseBrace,
    Equals,
    Comma,
    OtherByte,
    /// The name of an option of a pass that has none: no token of a text is one.
    NoOption,
}

#[derive(Clone, Copy)]
pub struct Token {
    pub kind: Kind,
    /// The place of its first byte in the text.
    pub start: usize,
}

/// Where a pass stands.
#[derive(Clone, Copy)]
pub enum Level {
    Module,
    Nested,
}

/// What may stand at a place of a pipeline text.
#[derive(Clone, Copy)]
pub enum Wanted {
    Module,
    OnEach,
    /// A pass that has the option.
    WidePass(Level),
    /// A pass that has none.
    PlainPass(Level),
    Width,
    NoOption,
    Value,
    Open,
    Close,
    OpenBrace,
    CloseBrace,
    Equals,
    Comma,
}

/// Whether the pass may stand there.
pub fn stands(level: Level, pass: PassName) -> bool
    ensures { result ≡ may_stand level pass }
{
    match level {
        Level::Module => true,
        Level::Nested => !matches!(
            pass,
            PassName::ConvertFuncToLlvm
                | PassName::FinalizeMemrefToLlvm
                | PassName::FullConvertToLlvm
        ),
    }
}

/// Whether the pass has the option `index-bitwidth`.
pub fn is_wide(pass: PassName) -> bool
    ensures { result ≡ has_width pass }
{
    !matches!(
        pass,
        PassName::ConvertScfToCf | PassName::ArithExpand | PassName::ReconcileUnrealizedCasts
    )
}

pub fn fit(wanted: Wanted, kind: Kind) -> bool
    ensures { result ≡ fits wanted kind }
{
    match (wanted, kind) {
        (Wanted::WidePass(level), Kind::Pass(pass)) => is_wide(pass) && stands(level, pass),
        (Wanted::PlainPass(level), Kind::Pass(pass)) => !is_wide(pass) && stands(level, pass),
        (Wanted::Value, Kind::Zero | Kind::SixtyFour) => true,
        (Wanted::Module, Kind::Module)
        | (Wanted::OnEach, Kind::OnEach(_))
        | (Wanted::Width, Kind::Width)
        | (Wanted::NoOption, Kind::NoOption)
        | (Wanted::Open, Kind::Open)
        | (Wanted::Close, Kind::Close)
        | (Wanted::OpenBrace, Kind::OpenBrace)
        | (Wanted::CloseBrace, Kind::CloseBrace)
        | (Wanted::Equals, Kind::Equals)
        | (Wanted::Comma, Kind::Comma) => true,
        _ => false,
    }
}
