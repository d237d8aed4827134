//! The names of operations that are read: each stands in the text, and is one of the table where others aren't allowed.
//!
//! A crate of laws.
#![tactic(auto)]

mod laws;

pub use laws::{law_names_are_kept, law_read_is_registered};
