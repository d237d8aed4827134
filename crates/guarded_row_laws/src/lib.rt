//! Rows that do what their roots do under a condition on the operands.
//!
//! A crate of definitions with their laws.
#![tactic(auto)]

mod laws;

pub use laws::{law_alloc_row, law_dim_row};
