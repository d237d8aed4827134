//! Whole runs of a function over a memory, in code.
#![tactic(auto)]

mod arguments;
mod entries;
mod kinds;
mod results;
mod whole;

pub use kinds::{End, Outcome, TraceList};
pub use whole::run_over;
