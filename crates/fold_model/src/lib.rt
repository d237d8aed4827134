//! What a pipeline makes of a module with new numbers that are fresh, and the same step by step.
#![tactic(auto)]

mod laws;

pub use laws::law_runs_are_folds;
