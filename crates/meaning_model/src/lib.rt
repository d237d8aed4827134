//! The meanings of a module: S over buffers, L over numbered cells. A crate of definitions with their laws.
#![tactic(auto)]

mod laws;

pub use laws::{law_always_room, law_forms, law_more_fuel};
