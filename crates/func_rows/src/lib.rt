//! The rows of convert-func-to-llvm in code: functions, calls and returns in converted types; and the row of casts.
#![tactic(auto)]

mod calls;
mod casts;
mod functions;
mod parts;
mod returns;
mod set;
mod signatures;
mod table;

pub use set::{CastRows, FuncRows};
pub use signatures::signature;
