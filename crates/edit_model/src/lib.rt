//! Nodes of a function after one write, and that it stays closed.
//!
//! A crate of definitions with their laws.
#![tactic(auto)]
