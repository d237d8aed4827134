//! The passes of a pipeline on functions, and the whole run of a pipeline over a module.
#![tactic(auto)]

mod passes;
mod whole;

pub use lowered_module::LoweredModule;
pub use passes::UnitPasses;
pub use tree_model::NoMemory;
pub use whole::lower;
