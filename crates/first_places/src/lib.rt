//! The first place of a list at which something holds, tables in which a key keeps what it got first, and values that stand once.
//!
//! A crate of definitions with a law.
#![tactic(auto)]

mod laws;

pub use laws::law_one_first;
