//! Runs of a module by its structured meaning.
#![tactic(auto)]

mod run;

pub use outcome_code::{End, Outcome, TraceList};
pub use run::run_s;
