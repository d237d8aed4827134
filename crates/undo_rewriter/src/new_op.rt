//! Operations that are put in without numbers of their own.

ghost use Rattle.std.specs.Prelude.{◌≡◌, ℕ, ◌+◌, ◌<◌, ◌≤◌, List, length, insert, IfOk, OnOk, OnErr};
ghost use Rattle.flat_model.specs.Flat.{AllBelow, IsOpWithin, block_at};
ghost use Rattle.edit_effects.specs.HandleTree.{front_of, op_of, regions_end, tree};
ghost use Rattle.edit_effects.specs.Effects.{op_edited, op_inserted};
ghost use Rattle.edit_model.specs.Writes.{with_op, with_ops};
ghost use Rattle.undo_rewriter.specs.NewOps.{numbers_from, node_of};
ghost use Rattle.undo_rewriter.specs.Journal.{IsBack, KeepsMarks};

use crate::rewriter::Rewriter;
use flat_model::{BlockId, NamedAttrs, OpId, OpNode};
use key_model::Handle;
use sqlite_items::Items;
use std::alloc::{AllocError, Global};
use tree_model::{IdList, Name, NoMemory};

/// An operation that is new. Its results are new values of these types.
#[derive(Drop)]
pub struct NewOp {
    pub name: Name,
    pub operands: IdList,
    pub results: Vec<Handle>,
    pub props: NamedAttrs,
    pub attrs: NamedAttrs,
    pub successors: IdList,
}

/// So many numbers in order.
#[tactic(auto, using(crate::proofs::NewOpLaws::number_laws))]
fn next_numbers(alloc: Global, start: u32, count: u32) -> Result<IdList, NoMemory>
    ensures { IfOk result (λ list. list ≡ numbers_from start count) }
{
    let mut list = Items::new(alloc);
    for turn in 0..count {
        let Some(number) = start.checked_add(turn) else {
            return Err(AllocError);
        };
        list.push(number)?;
    }
    Ok(list)
}

#[tactic(auto, using(crate::proofs::WriterLaws::edit_laws))]
impl Rewriter {
    /// Puts a new operation into a block, before the one at a place or at the end.
    pub fn insert_new(&mut self, block: BlockId, at: u32, new: NewOp) -> Result<OpId, NoMemory>
        requires block { block < length self.old.now.blocks }
        requires at { at ≤ length (block_at self.old.now block).ops }
        requires operands { AllBelow (length self.old.now.types) new.operands }
        requires successors { AllBelow (length self.old.now.blocks) new.successors }
        ensures op { IfOk result (λ op. op ≡ length self.old.now.ops) }
        ensures nodes { OnOk result (self.new.now ≡ with_ops (with_op self.old.now (node_of (length self.old.now.types) new) new.results.items) block (insert (block_at self.old.now block).ops at (length self.old.now.ops))) }
        ensures tree { OnOk result ((n i : ℕ) → i < length self.old.now.ops → op_edited (op_inserted block at (op_of (front_of self.new.now (length self.old.now.ops) (node_of (length self.old.now.types) new)) regions_end)) (tree n self.old.now i) ≡ tree n self.new.now i) }
        ensures kept { KeepsMarks self.old self.new }
        ensures err { OnErr result (IsBack self.old self.new) }
    {
        let values = self.func.value_count()?;
        let Ok(count) = u32::try_from(new.results.len()) else {
            return Err(AllocError);
        };
        let results = next_numbers(self.alloc, values, count)?;
        let node = OpNode {
            name: new.name,
            results,
            operands: new.operands,
            props: new.props,
            attrs: new.attrs,
            regions: Items::new(self.alloc),
            successors: new.successors,
        };
        self.insert_op(block, at, node, new.results.as_slice())
    }
}
