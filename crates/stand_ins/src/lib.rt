//! Values that stand for others: a table in which one value after another is given up for another one.
#![tactic(auto)]

mod calls;
mod table;

pub use table::StandIns;
