//! A value in the place of another in all operands.

ghost use Rattle.std.specs.Prelude.{◌≡◌, ℕ, ◌<◌, ◌≤◌, length, get_or, OnOk, OnErr};
ghost use Rattle.flat_model.specs.Flat.{op_at};
ghost use Rattle.edit_effects.specs.HandleTree.{tree};
ghost use Rattle.edit_effects.specs.Effects.{op_edited};
ghost use Rattle.edit_effects.specs.Uses.{replaced, node_replaced, with_uses, uses_replaced};
ghost use Rattle.edit_model.specs.Writes.{with_node, with_operand};
ghost use Rattle.undo_rewriter.specs.Journal.{IsBack, KeepsMarks};

use crate::rewriter::Rewriter;
use flat_model::{OpId, ValueId};
use std::alloc::AllocError;
use tree_model::NoMemory;

#[tactic(auto, using(crate::proofs::WriterLaws::edit_laws))]
impl Rewriter {
    /// Makes a value each operand that is another one.
    pub fn replace_uses(&mut self, from: ValueId, to: ValueId) -> Result<(), NoMemory>
        requires { to < length self.old.now.types }
        ensures nodes { OnOk result (self.new.now ≡ with_uses from to self.old.now) }
        ensures tree { OnOk result ((n i : ℕ) → i < length self.old.now.ops → op_edited (uses_replaced from to) (tree n self.old.now i) ≡ tree n self.new.now i) }
        ensures kept { KeepsMarks self.old self.new }
        ensures err { OnErr result (IsBack self.old self.new) }
    {
        let start = self.checkpoint();
        match self.replace_steps(from, to) {
            Ok(()) => Ok(()),
            Err(e) => {
                self.rollback(start);
                Err(e)
            }
        }
    }

    fn replace_steps(&mut self, from: ValueId, to: ValueId) -> Result<(), NoMemory>
        requires { to < length self.old.now.types }
        ensures nodes { OnOk result (self.new.now ≡ with_uses from to self.old.now) }
        ensures kept { KeepsMarks self.old self.new }
    {
        self.begin()?;
        for op in 0..self.func.all_ops()? {
            self.replace_in(op, from, to)?;
        }
        Ok(())
    }

    fn replace_in(&mut self, op: OpId, from: ValueId, to: ValueId) -> Result<(), NoMemory>
        requires op { op < length self.old.now.ops }
        requires to { to < length self.old.now.types }
        ensures nodes { OnOk result (self.new.now ≡ with_node self.old.now op (node_replaced from to (op_at self.old.now op))) }
        ensures kept { KeepsMarks self.old self.new }
    {
        let Ok(count) = u32::try_from(self.func.operands(op).len()) else {
            return Err(AllocError);
        };
        for at in 0..count {
            self.replace_at(op, at, from, to)?;
        }
        Ok(())
    }

    fn replace_at(&mut self, op: OpId, at: u32, from: ValueId, to: ValueId) -> Result<(), NoMemory>
        requires op { op < length self.old.now.ops }
        requires at { at < length (op_at self.old.now op).operands }
        requires to { to < length self.old.now.types }
        ensures nodes { OnOk result (self.new.now ≡ with_operand self.old.now op at (replaced from to (get_or (op_at self.old.now op).operands at 0))) }
        ensures kept { KeepsMarks self.old self.new }
    {
        if self.func.operands(op)[at as usize] == from {
            self.put_operand(op, at, to)?;
        }
        Ok(())
    }
}
