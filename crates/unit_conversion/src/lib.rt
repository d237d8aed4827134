//! The conversion of one function: another function, or the first operation that is not legalised.
#![tactic(auto)]

mod replaced;
mod stages;
mod whole;

pub use whole::convert;
