//! Rows of calls, returns and casts do what the operations do that they replace.
//!
//! A crate of definitions with their laws.
#![tactic(auto)]

mod laws;

pub use laws::{law_call_row, law_cast_row, law_return_row};
