//! Reads a text of the generic form: the module that it denotes, or its one refusal.
#![tactic(auto)]

mod reading;
mod trees;

pub use reading::{ReadRefusal, read_tree};
