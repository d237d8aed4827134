//! Reconciliation of a tree: casts that undo each other are left out, and so are casts without uses.
#![tactic(auto)]

mod laws;
mod lines;
mod omitted;
mod plan;
mod reconcile;
mod singles;
mod steps;
mod used;

pub use laws::{law_chain, law_two_casts};
pub use reconcile::reconciled;
