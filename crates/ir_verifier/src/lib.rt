//! The verifier: the first rule that a module breaks.
#![tactic(auto)]

mod broken;
mod function;
mod laws;
mod module;
mod numbering;
mod sooner;

pub use broken::BrokenRule;
pub use laws::{law_one_verdict, law_passes_verified};
pub use module::verify;
