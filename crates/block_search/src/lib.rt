//! A search in a graph: which nodes are reached from some, where one node may be left out.
#![tactic(auto)]

mod search;

pub use search::reached;
