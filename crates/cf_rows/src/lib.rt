//! The rows of convert-cf-to-llvm in code: branches, in converted types.
#![tactic(auto)]

mod branch;
mod set;
mod table;

pub use set::CfRows;
