//! The values of one call of a function, in a table by their numbers.
#![tactic(auto)]

mod lookups;
mod table;

pub use lookups::operands;
pub use table::{Table, bind, no_values, put};
