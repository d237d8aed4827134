//! Types, attributes and names that are read: types are formed, numbers fit their types, and functions have the names of functions.
//!
//! A crate of laws.
#![tactic(auto)]

mod laws;

pub use laws::{law_read_is_fit, law_read_is_named};
