//! Runs of a module of llvm operations over numbered cells.
#![tactic(auto)]

mod run;

pub use outcome_code::{End, Outcome, TraceList};
pub use run::run_l;
