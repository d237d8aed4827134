//! What the events of a text denote: terms as attributes, the numbers of values and labels, and the operations of a module.
//!
//! A crate of definitions with their laws.
#![tactic(auto)]

ghost use Rattle.event_trees.specs.Written.{ReadBack};

mod counts;

pub use counts::Counts;

/// A text whose telling words are those as which operations are written denotes the trees of these operations.
pub fn law_read_back()
    ensures { ReadBack }
{}
