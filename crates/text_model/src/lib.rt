//! Which bytes a module prints as.
//!
//! A crate of definitions with their laws.
#![tactic(auto)]

mod printed;
mod value_name;

pub use printed::{law_empty_module, law_lines_of_a_region, law_names_of_a_function};
pub use value_name::ValueName;
