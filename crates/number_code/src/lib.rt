//! Arithmetic on integers of a number of bits, as `number_model` says it.
#![tactic(auto)]

mod arith;
mod division;
mod operations;
mod widths;

pub use arith::{Binary, Flags, Given};
pub use operations::{Comparison, Resize, compares, of_two, resized};
pub use widths::{fits_signed, fits_unsigned, modulus, signed, unsigned, wrapped};
