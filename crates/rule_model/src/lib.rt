//! The rules that a module has to keep: when a module is formed, which rules an operation breaks, and the first one broken.
//!
//! A crate of definitions with their laws.
#![tactic(auto)]

mod laws;
mod rules;
mod shapes;

pub use laws::{
    law_nothing_broken, law_one_answer, law_regions, law_renaming, law_search, law_use_in_front,
};
pub use rules::Rule;
pub use shapes::Shape;
