//! Edits of arguments and of the lists of blocks. Each answers Ok and has its effect, or want of memory and has none.

ghost use Rattle.std.specs.Prelude.{◌≡◌, ℕ, ◌<◌, ◌≤◌, length, insert, remove, IfOk, OnOk, OnErr};
ghost use Rattle.flat_model.specs.Flat.{block_at, blocks_at};
ghost use Rattle.edit_effects.specs.HandleTree.{tree};
ghost use Rattle.edit_effects.specs.Effects.{op_edited, arg_added, arg_removed, block_added};
ghost use Rattle.edit_model.specs.Writes.{with_args, with_block, with_blocks, with_value};
ghost use Rattle.undo_rewriter.specs.Journal.{IsBack, KeepsMarks};

use crate::lists::{inserted, removed};
use crate::rewriter::Rewriter;
use flat_model::{BlockId, RegionId, ValueId};
use key_model::Handle;
use tree_model::NoMemory;

#[tactic(auto, using(crate::proofs::WriterLaws::edit_laws))]
impl Rewriter {
    /// Puts a new argument of a type before the one at a place of a block, or at the end.
    pub fn add_arg(&mut self, block: BlockId, at: u32, ty: Handle) -> Result<ValueId, NoMemory>
        requires block { block < length self.old.now.blocks }
        requires at { at ≤ length (block_at self.old.now block).args }
        ensures value { IfOk result (λ value. value ≡ length self.old.now.types) }
        ensures nodes { OnOk result (self.new.now ≡ with_args (with_value self.old.now ty) block (insert (block_at self.old.now block).args at (length self.old.now.types))) }
        ensures tree { OnOk result ((n i : ℕ) → i < length self.old.now.ops → op_edited (arg_added block at (length self.old.now.types, ty)) (tree n self.old.now i) ≡ tree n self.new.now i) }
        ensures kept { KeepsMarks self.old self.new }
        ensures err { OnErr result (IsBack self.old self.new) }
    {
        let start = self.checkpoint();
        match self.add_arg_steps(block, at, ty) {
            Ok(value) => Ok(value),
            Err(e) => {
                self.rollback(start);
                Err(e)
            }
        }
    }

    fn add_arg_steps(&mut self, block: BlockId, at: u32, ty: Handle) -> Result<ValueId, NoMemory>
        requires block { block < length self.old.now.blocks }
        requires at { at ≤ length (block_at self.old.now block).args }
        ensures value { IfOk result (λ value. value ≡ length self.old.now.types) }
        ensures nodes { OnOk result (self.new.now ≡ with_args (with_value self.old.now ty) block (insert (block_at self.old.now block).args at (length self.old.now.types))) }
        ensures kept { KeepsMarks self.old self.new }
    {
        self.begin()?;
        let value = self.add_value(ty)?;
        let args = inserted(self.alloc, self.func.args(block), at as usize, value)?;
        self.put_args(block, args)?;
        Ok(value)
    }

    /// Takes the argument at a place out of a block. Operands that are it stay so.
    pub fn remove_arg(&mut self, block: BlockId, at: u32) -> Result<(), NoMemory>
        requires block { block < length self.old.now.blocks }
        requires at { at < length (block_at self.old.now block).args }
        ensures nodes { OnOk result (self.new.now ≡ with_args self.old.now block (remove (block_at self.old.now block).args at)) }
        ensures tree { OnOk result ((n i : ℕ) → i < length self.old.now.ops → op_edited (arg_removed block at) (tree n self.old.now i) ≡ tree n self.new.now i) }
        ensures kept { KeepsMarks self.old self.new }
        ensures err { OnErr result (IsBack self.old self.new) }
    {
        let start = self.checkpoint();
        match self.remove_arg_steps(block, at) {
            Ok(()) => Ok(()),
            Err(e) => {
                self.rollback(start);
                Err(e)
            }
        }
    }

    fn remove_arg_steps(&mut self, block: BlockId, at: u32) -> Result<(), NoMemory>
        requires block { block < length self.old.now.blocks }
        requires at { at < length (block_at self.old.now block).args }
        ensures nodes { OnOk result (self.new.now ≡ with_args self.old.now block (remove (block_at self.old.now block).args at)) }
        ensures kept { KeepsMarks self.old self.new }
    {
        self.begin()?;
        let args = removed(self.alloc, self.func.args(block), at as usize)?;
        self.put_args(block, args)?;
        Ok(())
    }

    /// Puts a new block, without arguments and operations, before the one at a place of a region, or at the end.
    pub fn add_block(&mut self, region: RegionId, at: u32) -> Result<BlockId, NoMemory>
        requires region { region < length self.old.now.regions }
        requires at { at ≤ length (blocks_at self.old.now region) }
        ensures block { IfOk result (λ block. block ≡ length self.old.now.blocks) }
        ensures nodes { OnOk result (self.new.now ≡ with_blocks (with_block self.old.now) region (insert (blocks_at self.old.now region) at (length self.old.now.blocks))) }
        ensures tree { OnOk result ((n i : ℕ) → i < length self.old.now.ops → op_edited (block_added region at (length self.old.now.blocks)) (tree n self.old.now i) ≡ tree n self.new.now i) }
        ensures kept { KeepsMarks self.old self.new }
        ensures err { OnErr result (IsBack self.old self.new) }
    {
        let start = self.checkpoint();
        match self.add_block_steps(region, at) {
            Ok(block) => Ok(block),
            Err(e) => {
                self.rollback(start);
                Err(e)
            }
        }
    }

    fn add_block_steps(&mut self, region: RegionId, at: u32) -> Result<BlockId, NoMemory>
        requires region { region < length self.old.now.regions }
        requires at { at ≤ length (blocks_at self.old.now region) }
        ensures block { IfOk result (λ block. block ≡ length self.old.now.blocks) }
        ensures nodes { OnOk result (self.new.now ≡ with_blocks (with_block self.old.now) region (insert (blocks_at self.old.now region) at (length self.old.now.blocks))) }
        ensures kept { KeepsMarks self.old self.new }
    {
        self.begin()?;
        let block = self.push_block()?;
        let blocks = inserted(self.alloc, self.func.blocks(region), at as usize, block)?;
        self.put_blocks(region, blocks)?;
        Ok(block)
    }
}
