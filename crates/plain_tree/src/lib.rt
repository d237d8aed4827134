//! Plain trees: types, attributes and operations as data on which definitions recurse, and the way to and from the trees.
//!
//! A crate of definitions with their laws.
#![tactic(auto)]

mod laws;

pub use laws::{law_plain_of_tree, law_tree_of_plain};
