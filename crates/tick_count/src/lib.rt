//! Counts of steps.
//!
//! A [`Steps`] tells contracts how many steps were taken. It has no bytes at run time, and its calls do nothing there.
#![tactic(auto)]

mod steps;

pub use steps::Steps;
