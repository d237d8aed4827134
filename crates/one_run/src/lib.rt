//! What a pipeline makes of a module has one meaning: a law.
#![tactic(auto)]

mod laws;

pub use laws::law_one_run;
