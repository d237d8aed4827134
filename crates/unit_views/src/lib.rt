//! What patterns and targets see of an operation of a function: its shape, its sketch, and whether a mode demands it.
#![tactic(auto)]

mod demand;
mod shapes;
mod sketches;

pub use demand::{Mode, goes_with_holder, is_demanded};
pub use shapes::{first_arguments, op_shape, value_type};
pub use sketches::op_sketch;
