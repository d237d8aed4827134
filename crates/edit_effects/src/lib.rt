//! What edits of a function in nodes do to its tree.
//!
//! A crate of definitions with their laws.
#![tactic(auto)]
