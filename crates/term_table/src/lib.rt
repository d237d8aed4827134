//! Terms by number: a term is nothing, or a node with a form, a value and two parts, and a table gives each term one number.
#![tactic(auto)]

mod node;
mod table;
mod table_calls;

pub use node::{Form, Node};
pub use table::Terms;

#[cfg(test)]
mod tests;
