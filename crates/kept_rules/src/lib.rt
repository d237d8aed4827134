//! Laws on what passes keep: a module that is verified stays so.
//!
//! A crate of laws over the definitions of rules and of conversion.
#![tactic(auto)]

mod laws;

pub use laws::{law_fold_verified, law_verified};
