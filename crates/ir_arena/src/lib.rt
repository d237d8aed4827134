//! The arena: functions as lists of nodes with handles for types and attributes, and modules of them.
#![tactic(auto)]

mod build;
mod builder;
mod cells;
mod closing;
mod counting;
mod dicts;
mod exchanges;
mod fresh;
mod from_trees;
mod fronts;
mod func;
mod func_tree;
mod handles;
mod module_cell;
mod module_trees;
mod numbering;
mod op_nodes;
mod pushing;
mod readers;
mod steps;
mod to_trees;
mod values;

pub use builder::FuncBuilder;
pub use func::Func;
pub use module_cell::Module;
pub use module_trees::through_arena;
