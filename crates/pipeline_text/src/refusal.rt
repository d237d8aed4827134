//! Why a text is no pipeline text.

ghost use Rattle.std.specs.Prelude.{◌≡◌};
ghost use Rattle.pipeline_text.specs.declared.refusal.PipelineRefusal.TheVariants.{NoMemory};
ghost use Rattle.pipeline_text.specs.Reading.{is_word, not_pass, not_option, word_wrong, wrong};

use crate::token::Kind;
use std::alloc::AllocError;

/// What is wrong with the first token that does not fit.
#[derive(Clone, Copy, PartialEq, Eq, Debug)]
pub enum PipelineKind {
    /// Another token is wanted there.
    Expected,
    /// A word in a pass's place that names none.
    UnknownPass,
    /// A pass where it may not stand.
    WrongAnchor,
    /// A word in an option's place that names none of the pass's.
    UnknownOption,
    /// A word that is no value of the option, or the option's name once more.
    BadValue,
}

#[derive(Clone, Copy, PartialEq, Eq, Debug)]
pub enum PipelineRefusal {
    At { place: u64, kind: PipelineKind },
    NoMemory,
}

impl From<AllocError> for PipelineRefusal {
    ghost from_gives = { λ _ e. e ≡ NoMemory };

    fn from(_e: AllocError) -> PipelineRefusal {
        PipelineRefusal::NoMemory
    }
}

fn is_word(kind: Kind) -> bool
    ensures { result ≡ is_word kind }
{
    matches!(
        kind,
        Kind::Module
            | Kind::OnEach(_)
            | Kind::Pass(_)
            | Kind::Width
            | Kind::Zero
            | Kind::SixtyFour
            | Kind::OtherWord
    )
}

fn word_wrong(before: Kind, word: Kind) -> PipelineKind
    ensures { result ≡ word_wrong before word }
{
    match (before, word) {
        (Kind::Open | Kind::Comma, Kind::Pass(_)) => PipelineKind::WrongAnchor,
        (Kind::Open | Kind::Comma, _) => PipelineKind::UnknownPass,
        (Kind::Zero | Kind::SixtyFour, Kind::Width) | (Kind::Equals, _) => PipelineKind::BadValue,
        (Kind::Zero | Kind::SixtyFour | Kind::OpenBrace, _) => PipelineKind::UnknownOption,
        _ => PipelineKind::Expected,
    }
}

/// What is wrong with a token that does not fit, by the one before it.
pub fn wrong(before: Option<Kind>, next: Option<Kind>) -> PipelineKind
    ensures { result ≡ wrong before next }
{
    match (before, next) {
        (Some(before), Some(next)) if is_word(next) => word_wrong(before, next),
        _ => PipelineKind::Expected,
    }
}
