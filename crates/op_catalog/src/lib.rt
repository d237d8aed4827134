//! The table of operations: which names have a row, which rows end a block, and which properties belong to a row.
#![tactic(auto)]

mod properties;
mod rows;
#[cfg(test)]
mod table;

pub use properties::inherent;
pub use rows::{RowId, is_terminator, row};
