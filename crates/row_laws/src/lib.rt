//! Rows of patterns do what the operations do that they replace.
//!
//! A crate of definitions with their laws.
#![tactic(auto)]

mod laws;

pub use laws::{law_arith_rows, law_cf_rows, law_expand_rows};
