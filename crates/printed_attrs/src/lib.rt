//! The words of a printed attribute: its text is the text of these words, where a text can have the attribute they stand apart, and the grammar reads them as one.
//!
//! A crate of definitions with their laws.
#![tactic(auto)]

mod laws;

pub use laws::{law_attrs_are_read, law_attrs_stand_apart, law_text_of_attrs};
