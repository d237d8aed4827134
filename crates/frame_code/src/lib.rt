//! Places in a function and the regions under way, in code.
#![tactic(auto)]

mod frame;
mod moves;
mod regions;
mod rounds;

pub use frame::{Behind, Frame, Looping, Moving, Place};
pub use moves::{go, go_one};
pub use regions::moved;
