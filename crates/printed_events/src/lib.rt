//! The events of a text that was printed word by word: each says what its word says.
//!
//! A crate of definitions with their laws.
#![tactic(auto)]

ghost use Rattle.printed_events.specs.Events.{WordsAreTold};

/// The events of the text of words have these words.
pub fn law_words_are_told()
    ensures { WordsAreTold }
{}
