//! Blocks and regions in an arena.

use edit_list::EditList;

/// A block: its arguments and its operations.
#[derive(Debug, Drop)]
pub struct BlockCell {
    pub args: Vec<u32>,
    pub ops: EditList,
}

/// A region: its blocks.
#[derive(Debug, Drop)]
pub struct RegionCell {
    pub blocks: Vec<u32>,
}
