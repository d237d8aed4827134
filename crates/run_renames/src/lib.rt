//! Modules that are the same but for numbers have the same runs: laws.
#![tactic(auto)]

mod laws;

pub use laws::{law_folds_run, law_renamed_l, law_renamed_s};
