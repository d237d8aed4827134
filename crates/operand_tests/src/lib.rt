//! The first three rules, in code: the operands, results and regions of an operation.
#![tactic(auto)]

mod operands;
mod passing;
mod regions;
mod results;
mod slices;

pub use operands::operands_fit;
pub use regions::regions_fit;
pub use results::results_fit;
pub use slices::{behind, front};
