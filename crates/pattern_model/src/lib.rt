//! The patterns of each set, the passes, and what a pipeline makes of a module.
//!
//! A crate of definitions with their laws.
#![tactic(auto)]

mod laws;

pub use laws::{law_defined_once, law_renaming, law_tables};
