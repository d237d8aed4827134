//! The ten rules that are tests, in code: the first of them that an operation with its surroundings breaks.
#![tactic(auto)]

mod control;
mod first;
mod functions;
mod standing;
mod successors;

pub use control::terminators_fit;
pub use first::first_test;
pub use functions::{names_fit, signatures_fit, symbols_fit, values_fit};
pub use successors::successors_fit;
