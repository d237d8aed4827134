//! The numbers of what a text reads as: each function numbers its values and its blocks in the order of the text, and so each of them once.
//!
//! A crate of laws.
#![tactic(auto)]

mod laws;

pub use laws::{law_read_in_order, law_read_once};
