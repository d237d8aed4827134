//! Functions that are the same but for numbers print as the same text: a law.
#![tactic(auto)]

mod laws;

pub use laws::law_one_text;
