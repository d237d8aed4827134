//! The words of a printed operation, with all in it: its text is the text of these words, they stand apart, and the grammar reads them as an operation.
//!
//! A crate of definitions with their laws.
#![tactic(auto)]

mod laws;

pub use laws::{law_ops_are_read, law_ops_stand_apart, law_text_of_ops};
