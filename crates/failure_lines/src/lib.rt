//! The two lines on a function that failed in a pass.
#![tactic(auto)]

mod lines;
mod texts;

pub use lines::failure_lines;
pub use texts::FailedUnit;
