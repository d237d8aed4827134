//! What the rules that are tests look at, as plain data: an operation with what surrounds it, and the functions of a module.
#![tactic(auto)]

mod entries;
mod facts;
mod numbers;
mod parts;
mod shapes;
mod symbols;

pub use entries::{callee_in, entry, function_type, name_in};
pub use facts::{Facts, Head, Holder, Target};
pub use numbers::{case_count, distinct_count, segments, two_counts};
pub use parts::{part_by, part_in};
pub use shapes::shape_of;
pub use symbols::{Declared, Symbols, symbols_of};
