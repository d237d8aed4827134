//! What each operation without regions does with its operands, in code.
#![tactic(auto)]

mod access;
mod doings;
mod kinds;

pub use doings::doing_of;
pub use kinds::{Doing, NewMemref};
