//! The types that handles become on the way to the llvm dialect, with the pairs that were converted already.
#![tactic(auto)]

mod calls;
mod converter;
mod keys;

pub use converter::TypeConverter;
