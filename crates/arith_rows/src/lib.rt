//! The rows of convert-arith-to-llvm in code: operations of arith that become those of llvm, in converted types.
#![tactic(auto)]

mod forms;
mod resize;
mod set;
mod table;

pub use set::ArithRows;
