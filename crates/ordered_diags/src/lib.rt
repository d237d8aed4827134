//! Lines of diagnostics that come from many workers, in one order.
#![tactic(auto)]

mod diag;
mod laws;
mod merging;

pub use diag::Diag;
pub use laws::{law_lines_of_a_failure, law_one_order};
pub use merging::merge;
pub use tree_model::NoMemory;
