//! Of a table of sound rows each chosen derivation is sound: a law.
#![tactic(auto)]

mod laws;

pub use laws::law_chosen;
