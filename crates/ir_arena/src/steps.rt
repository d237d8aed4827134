//! The steps of which edits are made, and what takes them back.

ghost use Rattle.std.specs.Prelude.{◌≡◌, ◌+◌, ◌-◌, ◌<◌, ◌≤◌, ◌++◌, length, get_or, slice_index, insert, remove, take, IfOk, OnOk, OnErr};
ghost use Rattle.flat_model.specs.Flat.{IsClosed, IsOpWithin, op_at, block_at};
ghost use Rattle.edit_model.specs.Writes.{with_op, with_operand, with_ops};
ghost use Rattle.edit_model.specs.Rooms.{IsRoomier};

use crate::func::Func;
use crate::pushing::next;
use flat_model::{BlockId, OpId, OpNode, ValueId};
use key_model::Handle;
use std::alloc::AllocError;
use tree_model::NoMemory;

#[tactic(auto, using(crate::proofs::CellLaws::cell_laws))]
impl Func {
    /// Makes a value an operand.
    pub fn set_operand(&mut self, op: OpId, at: usize, value: ValueId)
        requires op { op < length self.old.flat.ops }
        requires at { at < length (op_at self.old.flat op).operands }
        requires value { value < length self.old.flat.types }
        ensures flat { self.new.flat ≡ with_operand self.old.flat op at value }
        ensures rooms { self.new.rooms ≡ self.old.rooms }
        ensures closed { IsClosed self.old.flat }
    {
        let node = &mut self.ops[op as usize];
        node.operands.set(at, value);
    }

    /// Adds an operation behind all others, and values of these types.
    pub fn add_op(&mut self, node: OpNode, types: &[Handle]) -> Result<OpId, NoMemory>
        requires { IsOpWithin (length self.old.flat.types + length types.now) (length self.old.flat.blocks) (record self.old.flat { types = self.old.flat.types ++ types.now }) node }
        ensures op { IfOk result (λ op. op ≡ length self.old.flat.ops) }
        ensures flat { OnOk result (self.new.flat ≡ with_op self.old.flat node types.now) }
        ensures rooms { self.new.rooms ≡ self.old.rooms }
        ensures err { OnErr result (self.new ≡ self.old) }
        ensures closed { IsClosed self.old.flat }
    {
        let op = next(self.ops.len())?;
        let values = self.types.len();
        self.types.extend_from_slice(types)?;
        if self.ops.push(node).is_err() {
            self.types.truncate(values);
            return Err(AllocError);
        }
        Ok(op)
    }

    /// Takes off the last operation, and all values behind so many.
    pub fn drop_op(&mut self, values: usize)
        requires some { 0 < length self.old.flat.ops }
        requires closed { IsClosed (record self.old.flat { ops = take (length self.old.flat.ops - 1) self.old.flat.ops; types = take values self.old.flat.types }) }
        ensures flat { self.new.flat ≡ record self.old.flat { ops = take (length self.old.flat.ops - 1) self.old.flat.ops; types = take values self.old.flat.types } }
        ensures rooms { self.new.rooms ≡ self.old.rooms }
    {
        let count = self.ops.len() - 1;
        self.ops.truncate(count);
        self.types.truncate(values);
    }

    /// Puts an operation into a block, before the one at a place or at the end.
    pub fn list_op(&mut self, block: BlockId, at: usize, op: OpId) -> Result<(), NoMemory>
        requires block { block < length self.old.flat.blocks }
        requires at { at ≤ length (block_at self.old.flat block).ops }
        requires op { op < length self.old.flat.ops }
        ensures flat { OnOk result (self.new.flat ≡ with_ops self.old.flat block (insert (block_at self.old.flat block).ops at op)) }
        ensures rooms { IsRoomier self.old.rooms self.new.rooms }
        ensures err { OnErr result (self.new ≡ self.old) }
        ensures closed { IsClosed self.old.flat }
    {
        let cell = &mut self.blocks[block as usize];
        cell.ops.insert(at, op)
    }

    /// The same where there is room, which can't fail.
    pub fn relist_op(&mut self, block: BlockId, at: usize, op: OpId)
        requires block { block < length self.old.flat.blocks }
        requires at { at ≤ length (block_at self.old.flat block).ops }
        requires op { op < length self.old.flat.ops }
        requires room { length (block_at self.old.flat block).ops < get_or self.old.rooms block 0 }
        ensures flat { self.new.flat ≡ with_ops self.old.flat block (insert (block_at self.old.flat block).ops at op) }
        ensures rooms { IsRoomier self.old.rooms self.new.rooms }
    {
        let cell = &mut self.blocks[block as usize];
        cell.ops.put_back(at, op);
    }

    /// Takes the operation at a place out of a block.
    pub fn unlist_op(&mut self, block: BlockId, at: usize) -> OpId
        requires block { block < length self.old.flat.blocks }
        requires at { at < length (block_at self.old.flat block).ops }
        ensures op { result ≡ slice_index (block_at self.old.flat block).ops at }
        ensures flat { self.new.flat ≡ with_ops self.old.flat block (remove (block_at self.old.flat block).ops at) }
        ensures rooms { IsRoomier self.old.rooms self.new.rooms }
        ensures room { length (block_at self.old.flat block).ops ≤ get_or self.new.rooms block 0 }
        ensures closed { IsClosed self.old.flat }
    {
        let cell = &mut self.blocks[block as usize];
        cell.ops.remove(at)
    }
}
