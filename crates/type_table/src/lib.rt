//! The type table over trees: what each type becomes on the way to the llvm dialect.
#![tactic(auto)]

mod own;
mod table;

pub use own::is_own;
pub use table::{becomes, converted_type, new_type};
