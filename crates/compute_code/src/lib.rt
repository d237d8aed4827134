//! The operations that only compute, in code, over operands in a list.
#![tactic(auto)]

mod casts;
mod inserts;
mod pure;

pub use casts::has_sizes;
pub use inserts::with_part;
pub use pure::computed;
