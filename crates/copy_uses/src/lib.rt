//! A tree in which each use of a copy is one of the value for which it stands.
#![tactic(auto)]

mod makers;
mod pairs;
mod tree;
mod whole;

pub use whole::{law_copies_left_out, uses_followed};
