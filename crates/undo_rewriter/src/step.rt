//! Steps, of which edits are made.

use crate::held::Held;
use flat_model::OpNode;
use ir_arena::Func;

/// What a step did, as far as it is needed to take it back.
#[derive(Drop)]
pub enum Step {
    /// An edit began.
    Begin,
    /// An operation was added behind all others. There were so many values before its results.
    OpAdded(u32),
    /// An operation was put into a block, at a place.
    OpListed(u32, u32),
    /// An operation was taken out of a block: the block, the place, and the operation.
    OpUnlisted(u32, u32, u32),
    /// An operand was changed: the operation, the place, and the value that stood there.
    OperandSet(u32, u32, u32),
    /// A value was added. There were so many before it.
    ValueAdded(u32),
    /// A block was added. There were so many before it.
    BlockAdded(u32),
    /// A block got other arguments: the block, and the arguments that it had.
    ArgsSet(u32, Held<Vec<u32>>),
    /// A region got other blocks: the region, and the blocks that it had.
    BlocksSet(u32, Held<Vec<u32>>),
    /// An operation got another node: the operation, and the node that it had.
    NodeSet(u32, Held<OpNode>),
    /// A block was cut in two: the block, and the new one, which has its end.
    BlockCut(u32, u32),
    /// Blocks were put into a region: the region, the place, and how many.
    BlocksListed(u32, u32, u32),
    /// Another function took the place of this one. This is an edit by itself.
    Replaced(Held<Func>),
}
