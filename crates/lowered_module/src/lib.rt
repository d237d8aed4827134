//! A module behind a pipeline, with the lines on what failed, over any passes on functions.
#![tactic(auto)]

mod lines;
mod lowered;

pub use lowered::{LoweredModule, lower_by};
