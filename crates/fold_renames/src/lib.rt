//! Two folds of one pipeline over one module are the same but for numbers: laws.
#![tactic(auto)]

mod laws;

pub use laws::law_one_outcome;
