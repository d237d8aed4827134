//! Sketches: what cuts look at.

use sqlite_items::Items;
use tree_model::{DictTree, IdList, ValueList};

/// A block, with the operands of its first `scf.yield` or `scf.condition`, where it has one.
#[derive(Debug, Drop)]
pub struct BlockSketch {
    pub label: u32,
    pub args: ValueList,
    pub passed: Option<IdList>,
}

/// A region, by its blocks in order.
#[derive(Debug, Drop)]
pub struct RegionSketch {
    pub blocks: Items<BlockSketch>,
}

/// An operation with its numbers: all that a cut looks at.
#[derive(Debug, Drop)]
pub struct OpSketch {
    pub results: ValueList,
    pub operands: IdList,
    pub props: DictTree,
    pub regions: Items<RegionSketch>,
    /// How many successors there are.
    pub successors: u32,
}
