//! The lists of keys of all shards, and the tables of entries that stand for them: what a shared table keeps while several
//! workers add keys.
//!
//! A crate of definitions with their laws.
#![tactic(auto)]

mod laws;

pub use laws::{
    law_append_keeps_lists, law_finds_exactly, law_keys_stay, law_one_handle, law_parts_stand,
    law_stands_at_place,
};
