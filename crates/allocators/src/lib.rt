//! The step of a pass on a module: declarations of the allocation functions that calls name.
#![tactic(auto)]

mod declarations;
mod looks;
mod steps;

pub use steps::{declare_allocators, module_step};
