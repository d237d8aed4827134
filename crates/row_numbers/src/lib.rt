//! What rows of patterns compute: the numbers of their operations, one after another, are those of the operation that they replace.
//!
//! A crate of definitions with their laws.
#![tactic(auto)]

mod laws;

pub use laws::{law_constants, law_extremes, law_roundings};
