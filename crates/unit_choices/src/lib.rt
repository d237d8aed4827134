//! What is chosen for each operation of a function, before anything is written: the first demanded operation that is
//! not legalised, or a slot for each operation.
#![tactic(auto)]

mod by_place;
mod choice_tree;
mod cuts;
mod entry;
mod fitting;
mod frames;
mod memo;
mod products;
mod slotting;
mod unlegalised;
mod whole;

pub use unlegalised::UnlegalisedTree;
pub use whole::choices;
