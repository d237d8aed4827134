//! Pipelines over modules on one worker: passes on functions, stages, and what failed.
#![tactic(auto)]

mod failure;
mod functions;
mod passes;
mod running;
mod stages;
mod widths;

pub use failure::{FailureList, FailureTree};
pub use passes::{IllegalOp, Passes};
pub use stages::{FoldedTree, run_pipeline};
pub use widths::width_of;
