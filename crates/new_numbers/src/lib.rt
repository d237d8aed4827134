//! New numbers of values and labels, each for its place: given on demand, and the same one when asked again.
#![tactic(auto)]

mod calls;
mod place;
mod table;
mod tops;
mod walk;

pub use place::ValuePlace;
pub use table::NewNumbers;
