//! What is chosen for the operations of a function, before anything is written.
#![tactic(auto)]

mod slots;

pub use slots::{Choices, CutTree, Framing, LineList, Slot};
