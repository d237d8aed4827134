//! Passes with their rows, targets and graphs, made once for all functions of a run.
#![tactic(auto)]

mod ready;
mod roots;
mod runs;
mod used;

pub use ready::ReadyPass;
pub use roots::count_patterns;
pub use runs::{converts_blocks, is_conversion, mode_of_pass};
pub use used::ReadyPasses;
