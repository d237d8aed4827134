//! What is read from a text of bytes has names and strings of bytes.
//!
//! A crate of definitions with their laws.
#![tactic(auto)]

mod laws;

pub use laws::{law_read_is_in_bytes, law_words_are_in_bytes};
