//! States of reading, one for each event of a text that is refused for nothing: what operations, regions and blocks leave of the levels behind them and of what is counted.
//!
//! A crate of definitions with their laws.
#![tactic(auto)]

mod laws;

pub use laws::{law_nothing_behind, law_operations_leave, law_operations_stay};
