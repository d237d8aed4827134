//! An event: a word at its place in the grammar.

use text_grammar::Place;

/// A word at its place, with a number for what it spells.
#[derive(Clone, Copy, Drop)]
pub struct Event {
    pub place: Place,
    /// The number of the first word of the text that spells the same, counted from 0; where the word is read by itself, as a
    /// number is, its own.
    pub name: u32,
}
