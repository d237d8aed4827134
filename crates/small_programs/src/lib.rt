//! Small programs as trees, for tests and figures of runs.
#![tactic(auto)]

mod branches;
mod choices;
mod lines;
mod loops;
mod memory;
mod straight;

pub use branches::{counted_l, descent};
pub use choices::{executed, if_alone, if_else, switched};
pub use lines::{Line, Note, Ty, constant, plain};
pub use loops::{counted, counted_s, loop_by, nested_ticks};
pub use memory::{handed_over, unset_branch, unset_moved, unset_told};
pub use straight::{binary, one_function, ticks};
