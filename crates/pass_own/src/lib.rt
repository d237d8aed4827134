//! The cuts of each pass take values that are there from their operation alone.
//!
//! A crate of laws.
#![tactic(auto)]

mod laws;

pub use laws::law_passes_take_own;
