//! A function written anew from what is chosen for its operations, without copies, and the copies as pairs.
#![tactic(auto)]

mod function;
mod guide;
mod kept;
mod line;
mod names;
mod notes;
mod page;
mod pieces;
mod put;
mod sizes;
mod walk;

pub use function::function_written;
pub use notes::Notes;
