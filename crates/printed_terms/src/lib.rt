//! What the words of printed types and attributes denote: events with these words, read from the right, give terms, and these are those types and attributes.
//!
//! A crate of definitions with their laws.
#![tactic(auto)]

mod laws;

pub use laws::{law_attrs_are_told, law_types_are_told};
