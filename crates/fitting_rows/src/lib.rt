//! Laws on rows of patterns: where an operation keeps the rules, so do those that are chosen for it.
//!
//! A crate of definitions with their laws.
#![tactic(auto)]

mod laws;

pub use laws::law_chosen_fits;
