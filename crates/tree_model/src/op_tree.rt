//! Operations, functions and modules.

use crate::attr_tree::DictTree;
use crate::name::Name;
use crate::type_tree::TypeTree;
use sqlite_items::Items;

/// Values that are defined at one place, in order: the number of each and its type.
pub type ValueList = Items<(u32, TypeTree)>;

/// Numbers that stand for values or labels, in order.
pub type IdList = Items<u32>;

/// Operations in order.
pub type OpList = Items<OpTree>;

/// Blocks in order.
pub type BlockList = Items<BlockTree>;

/// Regions in order.
pub type RegionList = Items<RegionTree>;

/// Functions in order.
pub type FuncList = Items<FuncTree>;

/// An operation. Its operands are numbers of values, its successors labels of blocks.
#[cycle(op)]
#[derive(Debug, Drop)]
pub struct OpTree {
    pub name: Name,
    pub results: ValueList,
    pub operands: IdList,
    pub props: DictTree,
    pub attrs: DictTree,
    pub regions: RegionList,
    pub successors: IdList,
}

/// A block: its label, its arguments and its operations.
#[cycle(op)]
#[derive(Debug, Drop)]
pub struct BlockTree {
    pub label: u32,
    pub args: ValueList,
    pub ops: OpList,
}

/// A region: its blocks, of which the first is its entry.
#[cycle(op)]
#[derive(Debug, Drop)]
pub struct RegionTree {
    pub blocks: BlockList,
}

/// A function: the operation that defines it.
#[derive(Debug, Drop)]
pub struct FuncTree {
    pub op: OpTree,
}

/// A module: its properties, its attributes and its functions.
#[derive(Debug, Drop)]
pub struct ModuleTree {
    pub props: DictTree,
    pub attrs: DictTree,
    pub funcs: FuncList,
}
