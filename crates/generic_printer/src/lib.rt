//! Prints a module in the generic form, byte for byte as the definition of the printed text says.
#![tactic(auto)]

mod naming;
mod parts;
mod printing;
mod table;

pub use printing::{print_tree, put_func};
