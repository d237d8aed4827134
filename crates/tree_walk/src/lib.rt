//! The operations of a tree in the order of the text.
#![tactic(auto)]

mod walk;

pub use walk::operations_of;
