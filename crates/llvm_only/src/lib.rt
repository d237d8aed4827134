//! Whether all operations of a module are llvm ones.
#![tactic(auto)]

mod laws;
mod telling;

pub use laws::law_llvm_names;
pub use telling::is_all_llvm;
