//! Edits of a function that can be taken back.
#![tactic(auto)]

mod arg_edits;
mod cell_steps;
mod cuts;
mod edits;
mod held;
mod last;
mod listing;
mod lists;
mod marks;
mod new_op;
mod node_steps;
mod replacing;
mod rewriter;
mod root_edit;
mod step;
mod steps;
mod ticks;
mod undoing;
mod uses;

pub use new_op::NewOp;
pub use rewriter::{Mark, Rewriter};
