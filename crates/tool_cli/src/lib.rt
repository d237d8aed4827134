//! The top call: words, an input and two outputs go in, a status comes out.
//!
//! [`run_single`] does all that the program does, over any source and sinks. What it answers is a row of
//! the table of replies in `specs/Replies.antt`.
#![tactic(auto)]

mod behind;
mod edges;
mod prepared;
mod refusals;
pub mod run;
pub mod status;

pub use run::{law_one_reply, run_single, run_sure};
pub use status::Status;
