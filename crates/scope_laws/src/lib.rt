//! What looks for names find in texts in which each region that begins ends: a definition that is near stays near across operations and into regions, and what is found is right where all that may be found is.
//!
//! A crate of definitions with their laws.
#![tactic(auto)]

mod laws;

pub use laws::{law_across, law_found_is_right, law_into};
