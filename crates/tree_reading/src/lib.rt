//! The module that a text denotes: a text reads as one module, or is refused at one place as of one kind.
//!
//! A crate of definitions with their laws.
#![tactic(auto)]

mod laws;

pub use laws::{law_never_both, law_one_module, law_one_of_the_two, law_one_refusal};
