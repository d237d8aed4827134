//! From paths of operations to blocks that are reached with the block of a definition left out.
//!
//! A crate of definitions with their law.
#![tactic(auto)]

mod laws;

pub use laws::law_left_out;
