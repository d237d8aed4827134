//! The rows of a pass: its sets joined, in the order of its table.
#![tactic(auto)]

mod infos;
mod parts;
mod places;
mod set;

pub use parts::{Part, parts_of};
pub use places::{Place, find};
pub use set::PassRows;
