//! What is found of a text.

use term_table::Terms;
use text_events::Event;
use text_grammar::Word;
use text_kinds::Found;
use text_scopes::Class;

/// What is found of a text, as far as it is looked at.
#[derive(Drop)]
pub struct Findings {
    /// What refuses the text, by its byte.
    pub refusal: Option<Found>,
    pub words: Vec<Word>,
    /// What each word is, where it names an operation.
    pub classes: Vec<Class>,
    pub events: Vec<Event>,
    pub terms: Terms,
    /// The number of the type or attribute that begins at each event, 0 where none does.
    pub begun: Vec<u32>,
    /// The event of the definition for which each use of a value stands.
    pub values: Vec<Option<u32>>,
    /// The event of the label for which each successor stands.
    pub labels: Vec<Option<u32>>,
}
