//! Operations as nodes.

use key_model::Handle;
use sqlite_items::Items;
use tree_model::{IdList, Name};

/// The number of an operation: its place among all operations of its function.
pub type OpId = u32;

/// The number of a block.
pub type BlockId = u32;

/// The number of a region.
pub type RegionId = u32;

/// The number of a value: its place among the types.
pub type ValueId = u32;

/// An attribute by its handle, and its name.
#[derive(Debug, Drop)]
pub struct NamedAttr {
    pub name: Name,
    pub value: Handle,
}

/// Attributes by name.
pub type NamedAttrs = Items<NamedAttr>;

/// An operation without its types, which are those of its results.
#[derive(Debug, Drop)]
pub struct OpNode {
    pub name: Name,
    pub results: IdList,
    pub operands: IdList,
    pub props: NamedAttrs,
    pub attrs: NamedAttrs,
    pub regions: IdList,
    pub successors: IdList,
}
