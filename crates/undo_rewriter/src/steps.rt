//! Steps that are kept.

ghost use Rattle.std.specs.Prelude.{◌≡◌, ◌+◌, ◌<◌, ◌≤◌, ◌++◌, length, insert, remove, slice_index, IfOk, OnOk, OnErr};
ghost use Rattle.flat_model.specs.Flat.{IsOpWithin, op_at, block_at};
ghost use Rattle.edit_model.specs.Writes.{with_op, with_operand, with_ops};
ghost use Rattle.undo_rewriter.specs.Journal.{KeepsMarks};

use crate::rewriter::Rewriter;
use crate::step::Step;
use flat_model::{BlockId, OpId, OpNode, ValueId};
use key_model::Handle;
use tree_model::NoMemory;

impl Rewriter {
    /// An edit begins.
    pub fn begin(&mut self) -> Result<(), NoMemory>
        ensures ok { OnOk result (self.new.now ≡ self.old.now) }
        ensures kept { OnOk result (KeepsMarks self.old self.new) }
        ensures err { OnErr result (self.new ≡ self.old) }
    {
        self.func.closed();
        self.journal.push(Step::Begin)?;
        Ok(())
    }

    /// Makes a value an operand.
    pub fn put_operand(&mut self, op: OpId, at: u32, value: ValueId) -> Result<(), NoMemory>
        requires op { op < length self.old.now.ops }
        requires at { at < length (op_at self.old.now op).operands }
        requires value { value < length self.old.now.types }
        ensures ok { OnOk result (self.new.now ≡ with_operand self.old.now op at value) }
        ensures kept { OnOk result (KeepsMarks self.old self.new) }
        ensures err { OnErr result (self.new ≡ self.old) }
    {
        let was = self.func.operands(op)[at as usize];
        self.journal.push(Step::OperandSet(op, at, was))?;
        self.func.set_operand(op, at as usize, value);
        Ok(())
    }

    /// Adds an operation behind all others, and values of these types.
    pub fn add(&mut self, node: OpNode, types: &[Handle]) -> Result<OpId, NoMemory>
        requires { IsOpWithin (length self.old.now.types + length types.now) (length self.old.now.blocks) (record self.old.now { types = self.old.now.types ++ types.now }) node }
        ensures op { IfOk result (λ op. op ≡ length self.old.now.ops) }
        ensures ok { OnOk result (self.new.now ≡ with_op self.old.now node types.now) }
        ensures kept { OnOk result (KeepsMarks self.old self.new) }
        ensures err { OnErr result (self.new ≡ self.old) }
    {
        let values = self.func.value_count()?;
        self.journal.push(Step::OpAdded(values))?;
        match self.func.add_op(node, types) {
            Ok(op) => Ok(op),
            Err(e) => {
                self.journal.pop();
                Err(e)
            }
        }
    }

    /// Puts an operation into a block.
    pub fn list(&mut self, block: BlockId, at: u32, op: OpId) -> Result<(), NoMemory>
        requires block { block < length self.old.now.blocks }
        requires at { at ≤ length (block_at self.old.now block).ops }
        requires op { op < length self.old.now.ops }
        ensures ok { OnOk result (self.new.now ≡ with_ops self.old.now block (insert (block_at self.old.now block).ops at op)) }
        ensures kept { OnOk result (KeepsMarks self.old self.new) }
        ensures err { OnErr result (self.new ≡ self.old) }
    {
        self.journal.push(Step::OpListed(block, at))?;
        match self.func.list_op(block, at as usize, op) {
            Ok(()) => Ok(()),
            Err(e) => {
                self.journal.pop();
                Err(e)
            }
        }
    }

    /// Takes an operation out of a block.
    pub fn unlist(&mut self, block: BlockId, at: u32) -> Result<(), NoMemory>
        requires block { block < length self.old.now.blocks }
        requires at { at < length (block_at self.old.now block).ops }
        ensures ok { OnOk result (self.new.now ≡ with_ops self.old.now block (remove (block_at self.old.now block).ops at)) }
        ensures kept { OnOk result (KeepsMarks self.old self.new) }
        ensures err { OnErr result (self.new ≡ self.old) }
    {
        let op = self.func.op_at(block, at as usize);
        self.journal.push(Step::OpUnlisted(block, at, op))?;
        self.func.unlist_op(block, at as usize);
        Ok(())
    }
}
