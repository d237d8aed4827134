//! Blocks that are being written.
#![tactic(auto, using(crate::proofs::Layers::makers))]

ghost use Rattle.std.specs.Prelude.{◌≡◌, IfOk, OnOk, map};
ghost use Rattle.plain_tree.specs.Ops.{ops_in, plain_op, plain_values};
ghost use Rattle.unit_writer.specs.Pages.{begun, block_plain, ended, page_view, with_block, with_op};

use sqlite_items::Items;
use std::alloc::Global;
use std::mem;
use tree_model::{BlockList, BlockTree, NoMemory, OpList, OpTree, ValueList};

/// Blocks in order, the last of which is still open.
#[derive(Drop)]
pub struct Page {
    pub blocks: BlockList,
    pub label: u32,
    pub args: ValueList,
    pub ops: OpList,
}

/// A block of these parts.
fn block_of(label: u32, args: ValueList, ops: OpList) -> BlockTree
    ensures { block_plain result ≡ record { label = label; args = plain_values args; ops = ops_in (map plain_op ops) } }
{
    BlockTree { label, args, ops }
}

impl Page {
    /// The first block opens.
    pub fn new(alloc: Global, label: u32, args: ValueList) -> Page
        ensures { page_view result ≡ begun label (plain_values args) }
    {
        Page {
            blocks: Items::new(alloc),
            label,
            args,
            ops: Items::new(alloc),
        }
    }

    /// An operation at the end.
    pub fn put(&mut self, op: OpTree) -> Result<(), NoMemory>
        ensures { OnOk result (page_view self.new ≡ with_op (page_view self.old) (plain_op op)) }
    {
        self.ops.push(op)
    }

    /// The next block opens.
    pub fn begin(&mut self, alloc: Global, label: u32, args: ValueList) -> Result<(), NoMemory>
        ensures { OnOk result (page_view self.new ≡ with_block (page_view self.old) label (plain_values args)) }
    {
        let args = mem::replace(&mut self.args, args);
        let ops = mem::replace(&mut self.ops, Items::new(alloc));
        self.blocks.push(block_of(self.label, args, ops))?;
        self.label = label;
        Ok(())
    }

    /// The blocks, when the last one ends.
    pub fn end(self) -> Result<BlockList, NoMemory>
        ensures { IfOk result (λ bs. map block_plain bs ≡ ended (page_view self)) }
    {
        let mut blocks = self.blocks;
        blocks.push(block_of(self.label, self.args, self.ops))?;
        Ok(blocks)
    }
}
