//! Rows for memory do what the operations do that they replace.
//!
//! A crate of definitions with their laws.
#![tactic(auto)]

mod laws;

pub use laws::law_memory_rows;
