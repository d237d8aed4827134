//! Trees with other operands, and without some of the operations in them.
#![tactic(auto)]

mod edit;
mod lists;
mod makers;
mod omits;

pub use edit::op_edited;
pub use lists::turned;
pub use omits::Omits;
