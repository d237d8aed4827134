//! The words of a printed type: its text is the text of these words, they stand apart, and the grammar reads them as a type.
//!
//! A crate of definitions with their laws.
#![tactic(auto)]

mod laws;

pub use laws::{law_text_of_types, law_types_are_read, law_types_stand_apart};
