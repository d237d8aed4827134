//! Modules that are printed and read: what the printed text of a module denotes, and what holds of a module that a text reads as.
//!
//! A crate of definitions with their laws.
#![tactic(auto)]

mod laws;

pub use laws::{
    law_printed_text_denotes, law_read_is_in_bytes, law_read_is_settled, law_scoped_text_denotes,
};
