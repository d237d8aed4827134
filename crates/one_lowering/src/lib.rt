//! What a pipeline makes of a module prints as one text: a law.
#![tactic(auto)]

mod laws;

pub use laws::law_one_lowering;
