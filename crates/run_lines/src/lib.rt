//! The lines on a run: how it ends, and the calls of external functions.
#![tactic(auto)]

mod laws;
mod lines;
mod numbers;

pub use laws::law_lines;
pub use lines::{put_call, put_done};
