//! The ten rules that are tests, over the operations of a function's tree in the order of the text.
#![tactic(auto)]

mod function;
mod gather;
mod operation;
mod walk;

pub use function::first_broken_test;
