//! The grammar of MLIR's generic text, and the machine that reads it: each token gets its place in the grammar, and a fault of form its own.
#![tactic(auto)]

ghost use Rattle.text_grammar.specs.Laws.{CutOnce, ReadsOnce};

mod cuts;
mod kinds;
mod long_numbers;
mod machine;
mod parts;
mod places;
mod reading;
mod token_kinds;
mod words;

pub use cuts::{Words, cut};
pub use kinds::Kind;
pub use parts::{Part, Row, Wanted, lines, may_be_left_out};
pub use places::{Place, fits};
pub use reading::{Form, read_form};
pub use words::Word;

/// Words have the form of a text in one way: each stands at one place.
pub fn law_one_reading()
    ensures { ReadsOnce }
{}

/// A text is cut into words in one way.
pub fn law_cut_once()
    ensures { CutOnce }
{}

#[cfg(test)]
mod tests;
