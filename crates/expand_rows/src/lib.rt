//! The rows of arith-expand in code: operations of arith that become simpler ones of arith.
#![tactic(auto)]

mod set;
mod table;

pub use set::ExpandRows;
