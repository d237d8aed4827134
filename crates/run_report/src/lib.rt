//! What the program prints on runs: of the module that was read, and of the module that the pipeline gave.
#![tactic(auto)]

mod outcomes;
mod reports;
mod widths;

pub use reports::{Run, lowered_text, source_text};
