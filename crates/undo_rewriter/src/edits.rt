//! Edits. Each answers Ok and has its effect, or want of memory and has none.

ghost use Rattle.std.specs.Prelude.{◌≡◌, ℕ, ◌+◌, ◌<◌, ◌≤◌, [], ◌++◌, length, insert, remove, IfOk, OnOk, OnErr};
ghost use Rattle.flat_model.specs.Flat.{IsOpWithin, op_at, block_at};
ghost use Rattle.edit_effects.specs.HandleTree.{front_of, op_of, regions_end, tree};
ghost use Rattle.edit_effects.specs.Effects.{op_edited, operand_set, op_inserted, op_erased};
ghost use Rattle.edit_model.specs.Writes.{with_op, with_operand, with_ops};
ghost use Rattle.undo_rewriter.specs.Journal.{IsBack, KeepsMarks};

use crate::rewriter::Rewriter;
use flat_model::{BlockId, OpId, OpNode, ValueId};
use key_model::Handle;
use tree_model::NoMemory;

#[tactic(auto, using(crate::proofs::WriterLaws::edit_laws))]
impl Rewriter {
    /// Makes a value an operand.
    pub fn set_operand(&mut self, op: OpId, at: u32, value: ValueId) -> Result<(), NoMemory>
        requires op { op < length self.old.now.ops }
        requires at { at < length (op_at self.old.now op).operands }
        requires value { value < length self.old.now.types }
        ensures nodes { OnOk result (self.new.now ≡ with_operand self.old.now op at value) }
        ensures tree { OnOk result ((n i : ℕ) → i < length self.old.now.ops → op_edited (operand_set op at value) (tree n self.old.now i) ≡ tree n self.new.now i) }
        ensures kept { KeepsMarks self.old self.new }
        ensures err { OnErr result (IsBack self.old self.new) }
    {
        let start = self.checkpoint();
        match self.set_operand_steps(op, at, value) {
            Ok(()) => Ok(()),
            Err(e) => {
                self.rollback(start);
                Err(e)
            }
        }
    }

    fn set_operand_steps(&mut self, op: OpId, at: u32, value: ValueId) -> Result<(), NoMemory>
        requires op { op < length self.old.now.ops }
        requires at { at < length (op_at self.old.now op).operands }
        requires value { value < length self.old.now.types }
        ensures nodes { OnOk result (self.new.now ≡ with_operand self.old.now op at value) }
        ensures kept { KeepsMarks self.old self.new }
    {
        self.begin()?;
        self.put_operand(op, at, value)?;
        Ok(())
    }

    /// Puts a new operation into a block, before the one at a place or at the end, with new values of these types.
    pub fn insert_op(
        &mut self,
        block: BlockId,
        at: u32,
        node: OpNode,
        types: &[Handle],
    ) -> Result<OpId, NoMemory>
        requires block { block < length self.old.now.blocks }
        requires at { at ≤ length (block_at self.old.now block).ops }
        requires node { IsOpWithin (length self.old.now.types + length types.now) (length self.old.now.blocks) (record self.old.now { types = self.old.now.types ++ types.now }) node }
        requires leaf { node.regions ≡ [] }
        ensures op { IfOk result (λ op. op ≡ length self.old.now.ops) }
        ensures nodes { OnOk result (self.new.now ≡ with_ops (with_op self.old.now node types.now) block (insert (block_at self.old.now block).ops at (length self.old.now.ops))) }
        ensures tree { OnOk result ((n i : ℕ) → i < length self.old.now.ops → op_edited (op_inserted block at (op_of (front_of self.new.now (length self.old.now.ops) node) regions_end)) (tree n self.old.now i) ≡ tree n self.new.now i) }
        ensures kept { KeepsMarks self.old self.new }
        ensures err { OnErr result (IsBack self.old self.new) }
    {
        let start = self.checkpoint();
        match self.insert_steps(block, at, node, types) {
            Ok(op) => Ok(op),
            Err(e) => {
                self.rollback(start);
                Err(e)
            }
        }
    }

    fn insert_steps(
        &mut self,
        block: BlockId,
        at: u32,
        node: OpNode,
        types: &[Handle],
    ) -> Result<OpId, NoMemory>
        requires block { block < length self.old.now.blocks }
        requires at { at ≤ length (block_at self.old.now block).ops }
        requires node { IsOpWithin (length self.old.now.types + length types.now) (length self.old.now.blocks) (record self.old.now { types = self.old.now.types ++ types.now }) node }
        ensures op { IfOk result (λ op. op ≡ length self.old.now.ops) }
        ensures nodes { OnOk result (self.new.now ≡ with_ops (with_op self.old.now node types.now) block (insert (block_at self.old.now block).ops at (length self.old.now.ops))) }
        ensures kept { KeepsMarks self.old self.new }
    {
        self.begin()?;
        let op = self.add(node, types)?;
        self.list(block, at, op)?;
        Ok(op)
    }

    /// Takes the operation at a place out of a block, with all that it holds. It stays in the function's lists until it
    /// is put back.
    pub fn erase_at(&mut self, block: BlockId, at: u32) -> Result<(), NoMemory>
        requires block { block < length self.old.now.blocks }
        requires at { at < length (block_at self.old.now block).ops }
        ensures nodes { OnOk result (self.new.now ≡ with_ops self.old.now block (remove (block_at self.old.now block).ops at)) }
        ensures tree { OnOk result ((n i : ℕ) → i < length self.old.now.ops → op_edited (op_erased block at) (tree n self.old.now i) ≡ tree n self.new.now i) }
        ensures kept { KeepsMarks self.old self.new }
        ensures err { OnErr result (IsBack self.old self.new) }
    {
        let start = self.checkpoint();
        match self.erase_steps(block, at) {
            Ok(()) => Ok(()),
            Err(e) => {
                self.rollback(start);
                Err(e)
            }
        }
    }

    fn erase_steps(&mut self, block: BlockId, at: u32) -> Result<(), NoMemory>
        requires block { block < length self.old.now.blocks }
        requires at { at < length (block_at self.old.now block).ops }
        ensures nodes { OnOk result (self.new.now ≡ with_ops self.old.now block (remove (block_at self.old.now block).ops at)) }
        ensures kept { KeepsMarks self.old self.new }
    {
        self.begin()?;
        self.unlist(block, at)?;
        Ok(())
    }
}
