//! Functions as lists of nodes: what the arena's contracts speak of.
//!
//! A node names the values, blocks, regions and operations that belong to it by their numbers, which are places
//! in the lists. Types and attributes are handles.
#![tactic(auto)]

mod nodes;

pub use nodes::{BlockId, NamedAttr, NamedAttrs, OpId, OpNode, RegionId, ValueId};
