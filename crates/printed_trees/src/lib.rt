//! The tree that the events of a printed module denote: the module, where its uses find their definitions.
//!
//! A crate of definitions with their laws.
#![tactic(auto)]

mod laws;

pub use laws::law_modules_denote;
