//! When a template does what an operation does, and when modules agree. A crate of definitions.
#![tactic(auto)]

mod laws;

pub use laws::law_agreement;
