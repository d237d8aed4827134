//! The module that the events of a text denote: the numbers of values and labels, and the operations.
#![tactic(auto)]

mod levels;
mod meant;
mod modules;
mod numbers;
mod operations;
mod waiting;
mod words;

pub use meant::{Definitions, meant_at};
pub use modules::module_of;
pub use numbers::numbers_at;
pub use waiting::result_counts;
pub use words::ops_at;
