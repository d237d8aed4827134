//! The graph of legality: how deep the derivations of a name are, and in which order the patterns of a name are tried.
#![tactic(auto)]

mod found;
mod graph;
mod infos;
mod places;
mod ranks;
mod rounds;

pub use graph::Graph;
pub use infos::{LegalNames, PatternInfo};
