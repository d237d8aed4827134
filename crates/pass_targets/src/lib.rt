//! The targets of the passes, in code.
#![tactic(auto)]

mod build;
mod names;
mod targets;

pub use targets::target_of_pass;
