//! Lists of numbers that are edited near one place at a time.
//!
//! A list is a buffer with a gap at the place of the last edit, so that edits close to each other move few
//! numbers, however long the list is. Contracts see the list and the room of its buffer. The room never falls,
//! so what was taken out or cut off can be put back without memory.
#![tactic(auto)]

mod buffer;
mod cuts;
mod edits;
mod list;
mod readers;

pub use list::EditList;
