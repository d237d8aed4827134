//! Steps that exchange a list or a node, and give the one that was there; and steps that add values and blocks.

ghost use Rattle.std.specs.Prelude.{◌≡◌, ◌<◌, length, get_or, set, take, IfOk, OnOk, OnErr};
ghost use Rattle.flat_model.specs.Flat.{AllBelow, IsClosed, IsOpWithin, op_at, block_at, blocks_at};
ghost use Rattle.edit_model.specs.Writes.{with_args, with_block, with_blocks, with_node, with_ops, with_value};

use crate::cells::BlockCell;
use crate::func::Func;
use crate::pushing::next;
use edit_list::EditList;
use flat_model::{BlockId, OpId, OpNode, RegionId, ValueId};
use key_model::Handle;
use std::alloc::Global;
use std::mem;
use tree_model::NoMemory;

#[tactic(auto, using(crate::proofs::CellLaws::cell_laws))]
impl Func {
    /// Gives a block other arguments, and gives those that it had.
    pub fn exchange_args(&mut self, block: BlockId, args: Vec<ValueId>) -> Vec<ValueId>
        requires block { block < length self.old.flat.blocks }
        requires args { AllBelow (length self.old.flat.types) args.items }
        ensures was { result.items ≡ (block_at self.old.flat block).args }
        ensures flat { self.new.flat ≡ with_args self.old.flat block args.items }
        ensures rooms { self.new.rooms ≡ self.old.rooms }
        ensures closed { IsClosed self.old.flat }
    {
        let cell = &mut self.blocks[block as usize];
        mem::replace(&mut cell.args, args)
    }

    /// Gives a block other operations, and gives the list that it had.
    pub fn exchange_ops(&mut self, block: BlockId, ops: EditList) -> EditList
        requires block { block < length self.old.flat.blocks }
        requires ops { AllBelow (length self.old.flat.ops) ops.list }
        ensures was { result.list ≡ (block_at self.old.flat block).ops }
        ensures room { result.room ≡ get_or self.old.rooms block 0 }
        ensures flat { self.new.flat ≡ with_ops self.old.flat block ops.list }
        ensures rooms { self.new.rooms ≡ set self.old.rooms block ops.room }
        ensures closed { IsClosed self.old.flat }
    {
        let cell = &mut self.blocks[block as usize];
        mem::replace(&mut cell.ops, ops)
    }

    /// Gives a region other blocks, and gives those that it had.
    pub fn exchange_blocks(&mut self, region: RegionId, blocks: Vec<BlockId>) -> Vec<BlockId>
        requires region { region < length self.old.flat.regions }
        requires blocks { AllBelow (length self.old.flat.blocks) blocks.items }
        ensures was { result.items ≡ blocks_at self.old.flat region }
        ensures flat { self.new.flat ≡ with_blocks self.old.flat region blocks.items }
        ensures rooms { self.new.rooms ≡ self.old.rooms }
        ensures closed { IsClosed self.old.flat }
    {
        let cell = &mut self.regions[region as usize];
        mem::replace(&mut cell.blocks, blocks)
    }

    /// Gives an operation another node, and gives the one that it had.
    pub fn exchange_node(&mut self, op: OpId, node: OpNode) -> OpNode
        requires op { op < length self.old.flat.ops }
        requires node { IsOpWithin (length self.old.flat.types) (length self.old.flat.blocks) self.old.flat node }
        ensures was { result ≡ op_at self.old.flat op }
        ensures flat { self.new.flat ≡ with_node self.old.flat op node }
        ensures rooms { self.new.rooms ≡ self.old.rooms }
        ensures closed { IsClosed self.old.flat }
    {
        mem::replace(&mut self.ops[op as usize], node)
    }

    /// One value more, of a type.
    pub fn add_value(&mut self, ty: Handle) -> Result<ValueId, NoMemory>
        ensures value { IfOk result (λ value. value ≡ length self.old.flat.types) }
        ensures flat { OnOk result (self.new.flat ≡ with_value self.old.flat ty) }
        ensures rooms { self.new.rooms ≡ self.old.rooms }
        ensures err { OnErr result (self.new ≡ self.old) }
        ensures closed { IsClosed self.old.flat }
    {
        let value = next(self.types.len())?;
        self.types.push(ty)?;
        Ok(value)
    }

    /// Takes off all values behind so many.
    pub fn drop_values(&mut self, count: usize)
        requires { IsClosed (record self.old.flat { types = take count self.old.flat.types }) }
        ensures flat { self.new.flat ≡ record self.old.flat { types = take count self.old.flat.types } }
        ensures rooms { self.new.rooms ≡ self.old.rooms }
    {
        self.types.truncate(count);
    }

    /// One block more, without arguments and operations.
    pub fn add_block(&mut self, alloc: Global) -> Result<BlockId, NoMemory>
        ensures block { IfOk result (λ block. block ≡ length self.old.flat.blocks) }
        ensures flat { OnOk result (self.new.flat ≡ with_block self.old.flat) }
        ensures rooms { OnOk result (take (length self.old.flat.blocks) self.new.rooms ≡ self.old.rooms) }
        ensures err { OnErr result (self.new ≡ self.old) }
        ensures closed { IsClosed self.old.flat }
    {
        let block = next(self.blocks.len())?;
        let args = Vec::new(alloc);
        let ops = EditList::new(alloc);
        self.blocks.push(BlockCell { args, ops })?;
        Ok(block)
    }

    /// Takes off all blocks behind so many.
    pub fn drop_blocks(&mut self, count: usize)
        requires { IsClosed (record self.old.flat { blocks = take count self.old.flat.blocks }) }
        ensures flat { self.new.flat ≡ record self.old.flat { blocks = take count self.old.flat.blocks } }
        ensures rooms { self.new.rooms ≡ take count self.old.rooms }
    {
        self.blocks.truncate(count);
    }
}
