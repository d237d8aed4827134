//! The rows of convert-scf-to-cf in code: cuts of the block behind an operation.
#![tactic(auto)]

mod conditions;
mod loops;
mod products;
mod regions;
mod set;
mod switches;
mod table;

pub use regions::Alone;
pub use set::ScfRows;
