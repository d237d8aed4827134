//! Names in scope: which names of a text are defined twice, and for which definition each use stands.
#![tactic(auto)]

mod bodies;
mod names;
mod resolving;
mod scopes;
mod steps;
mod sweeps;
mod tables;

pub use bodies::{Body, Class, behind, class_of, is_module, opens_body};
pub use resolving::Uses;
pub use steps::Step;
pub use sweeps::first_again;
pub use tables::{Names, first_redefined, resolve};

#[cfg(test)]
mod tests;
