//! What is printed on a run of a lowered module is one text: a law.
#![tactic(auto)]

mod laws;

pub use laws::law_one_report;
