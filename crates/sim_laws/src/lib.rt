//! Laws of meaning: one machine that keeps to another.
#![tactic(auto)]
