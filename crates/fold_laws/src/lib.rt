//! The law of pipelines: what a pipeline makes of a verified module keeps its meaning.
#![tactic(auto)]

mod laws;

pub use laws::law_fold;
