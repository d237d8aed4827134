//! Uses of values against their definitions: a use has the type of its definition, and an index that is one of its results.
#![tactic(auto)]

mod clashes;
mod indexed;
mod laws;
mod rows;
mod signatures;
mod types;

pub use clashes::first_clash;
pub use indexed::Indexed;
pub use laws::{law_one_term_for_a_type, law_operands, law_results};
