//! The first operation of a function with a result that uses itself.
#![tactic(auto)]

mod first;
mod flat;
mod graph;
mod ranks;

pub use first::first_own_use;
