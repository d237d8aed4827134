//! Operations, blocks, regions and functions.

use crate::form::{Form, Packing, ShapeList};
use crate::width::Width;
use sqlite_items::Items;
use tree_model::Bytes;

/// Numbers that stand for values or labels, in order.
pub type IdList = Items<u32>;

/// Operations in order.
pub type OperationList = Items<Operation>;

/// Blocks in order.
pub type BlockList = Items<Block>;

/// Regions in order.
pub type RegionList = Items<Region>;

/// Widths in order.
pub type WidthList = Items<Width>;

/// An operation. Its results and operands are numbers of values, its successors labels of blocks.
#[cycle(operation)]
#[derive(Debug, Drop)]
pub struct Operation {
    pub form: Form,
    pub results: IdList,
    pub operands: IdList,
    pub successors: IdList,
    pub regions: RegionList,
}

/// A block: its label, its arguments and its operations.
#[cycle(operation)]
#[derive(Debug, Drop)]
pub struct Block {
    pub label: u32,
    pub args: IdList,
    pub ops: OperationList,
}

/// A region: its blocks, of which the first is its entry.
#[cycle(operation)]
#[derive(Debug, Drop)]
pub struct Region {
    pub blocks: BlockList,
}

/// What a function shows where it is the entry or is external: the widths of its parameters and of its results where all of them are
/// integers, and how results are handed over.
#[derive(Debug, Drop)]
pub struct Face {
    pub inputs: Option<WidthList>,
    pub outputs: Option<WidthList>,
    pub packing: Packing,
}

/// A function. One that is external has no blocks.
#[derive(Debug, Drop)]
pub struct Function {
    pub name: Bytes,
    pub face: Face,
    pub shapes: ShapeList,
    pub blocks: BlockList,
}
