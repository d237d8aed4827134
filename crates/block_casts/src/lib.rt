//! Blocks whose arguments have converted types.
#![tactic(auto)]

mod args;
mod blocks;
mod makers;

pub use blocks::op_blocks;
