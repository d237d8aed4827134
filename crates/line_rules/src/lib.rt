//! Laws on trees in which operations are replaced by others one after another: each rule that was kept still is.
//!
//! A crate of definitions with their laws.
#![tactic(auto)]

mod laws;

pub use laws::law_lines;
