//! The rows of finalize-memref-to-llvm in code: memrefs as their descriptors.
#![tactic(auto)]

mod allocation;
mod calls;
mod descriptor;
mod layout;
mod places;
mod set;
mod sizes;
mod table;

pub use set::MemrefRows;
