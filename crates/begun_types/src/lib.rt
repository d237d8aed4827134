//! The types that a text writes for its values: at each function type of an operation, and at each type of a block argument, a term begins.
//!
//! A crate of laws.
#![tactic(auto)]

mod laws;

pub use laws::{law_text_types_begin, law_types_begin};
