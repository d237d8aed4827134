//! From the tree of a module to its functions as a run sees them, as `form_model` says it.
#![tactic(auto)]

mod finder;
mod functions;
mod names;
mod operations;
mod signatures;
mod value_types;

pub use finder::{Finder, finder_of};
pub use functions::{decode, function_of};
pub use signatures::{Signature, signature_of};
pub use value_types::{ValueTypes, types_of};
