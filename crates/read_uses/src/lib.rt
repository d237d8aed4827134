//! The uses of what a text reads as: a text that reads is a file of moves, each of which says what the event at it defines or uses.
//!
//! A crate of laws.
#![tactic(auto)]

mod laws;

pub use laws::{
    law_finer_form, law_function_behind, law_index_in_range, law_reads_as_run, law_reads_finely,
};
