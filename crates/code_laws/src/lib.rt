//! Functions as a run sees them, from plain trees.
#![tactic(auto)]

mod laws;

pub use laws::law_codes;
