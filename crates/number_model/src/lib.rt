//! Integers of a number of bits: their arithmetic, where it is undefined, and its laws.
//!
//! A crate of definitions with their laws.
#![tactic(auto)]

mod laws;

pub use laws::{law_division, law_widths, law_wrapping};
