//! Laws on branches and on arguments of blocks in converted types: the rules are kept.
//!
//! A crate of laws over the definitions of rules and of conversion.
#![tactic(auto)]

mod laws;

pub use laws::{law_block_arguments, law_branches};
