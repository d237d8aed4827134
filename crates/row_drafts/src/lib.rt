//! Drafts in code: the operations of a template written one after another.
#![tactic(auto)]

mod buffer;
mod numbers;
mod parts;
mod writer;

pub use buffer::{Buffer, memref_buffer};
pub use parts::symbol_props;
pub use writer::Writer;
