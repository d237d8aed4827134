//! One step of a run, in code.
#![tactic(auto)]

mod pairs;
mod perform;
mod replies;
mod steps;
mod turns;

pub use steps::step;
pub use turns::{Stop, Turn};
