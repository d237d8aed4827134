//! Whether two functions are one up to the numbers of their values and the labels of their blocks.
//!
//! A renaming is one for a whole function: a label that stands in two regions is one name in both.
#![tactic(auto)]

mod alike;
mod laws;
mod numbers;
mod renaming;
mod same;

pub use laws::{law_same_is_reflexive, law_same_is_symmetric, law_same_is_transitive};
pub use same::same_shape;
