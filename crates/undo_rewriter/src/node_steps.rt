//! Steps on nodes and on whole lists of operations, that are kept.

ghost use Rattle.std.specs.Prelude.{◌≡◌, ◌<◌, ◌≤◌, [], ◌∷◌, ◌++◌, length, take, drop, IfOk, OnOk, OnErr};
ghost use Rattle.flat_model.specs.Flat.{AllBelow, IsClosed, IsOpWithin, op_at, block_at, blocks_at};
ghost use Rattle.edit_model.specs.Writes.{with_blocks, with_node};
ghost use Rattle.edit_effects.specs.Cuts.{with_cut};
ghost use Rattle.undo_rewriter.specs.declared.step.Step.TheVariants.{NodeSet as node_set};
ghost use Rattle.undo_rewriter.specs.Journal.{KeepsMarks};

use crate::cuts::cut_off;
use crate::held::Held;
use crate::last::put_last;
use crate::listing::list_blocks;
use crate::rewriter::Rewriter;
use crate::step::Step;
use flat_model::{BlockId, OpId, OpNode, RegionId};
use ir_arena::Func;
use std::alloc::{AllocError, Global};
use tree_model::NoMemory;

/// Gives an operation another node. The last step then holds the one that it had.
fn exchanged(
    func: &mut Func,
    journal: &mut Vec<Step>,
    alloc: Global,
    op: OpId,
    node: OpNode,
) -> Result<(), NoMemory>
    requires op { op < length func.old.flat.ops }
    requires node { IsOpWithin (length func.old.flat.types) (length func.old.flat.blocks) func.old.flat node }
    ensures flat { OnOk result (func.new.flat ≡ with_node func.old.flat op node) }
    ensures rooms { func.new.rooms ≡ func.old.rooms }
    ensures journal { OnOk result (journal.new.items ≡ journal.old.items ++ node_set op (op_at func.old.flat op) ∷ []) }
    ensures func_back { OnErr result (func.new ≡ func.old) }
    ensures journal_back { OnErr result (journal.new.items ≡ journal.old.items) }
    ensures closed { IsClosed func.old.flat }
{
    func.closed();
    journal.push(Step::Begin)?;
    let was = func.exchange_node(op, node);
    match Held::new(alloc, was) {
        Ok(held) => {
            put_last(journal, Step::NodeSet(op, held));
            Ok(())
        }
        Err(was) => {
            let _new = func.exchange_node(op, was);
            journal.pop();
            Err(AllocError)
        }
    }
}

impl Rewriter {
    /// Gives an operation another node.
    pub fn put_node(&mut self, op: OpId, node: OpNode) -> Result<(), NoMemory>
        requires op { op < length self.old.now.ops }
        requires node { IsOpWithin (length self.old.now.types) (length self.old.now.blocks) self.old.now node }
        ensures ok { OnOk result (self.new.now ≡ with_node self.old.now op node) }
        ensures kept { OnOk result (KeepsMarks self.old self.new) }
        ensures err { OnErr result (self.new ≡ self.old) }
    {
        exchanged(&mut self.func, &mut self.journal, self.alloc, op, node)?;
        Ok(())
    }

    /// Cuts a block in two: what stands in it from a place on stands in a new block, which is in no region yet.
    pub fn cut_block(&mut self, block: BlockId, at: u32) -> Result<BlockId, NoMemory>
        requires block { block < length self.old.now.blocks }
        requires at { at ≤ length (block_at self.old.now block).ops }
        ensures end { IfOk result (λ end. end ≡ length self.old.now.blocks) }
        ensures ok { OnOk result (self.new.now ≡ with_cut self.old.now block at) }
        ensures kept { OnOk result (KeepsMarks self.old self.new) }
        ensures err { OnErr result (self.new ≡ self.old) }
    {
        let blocks = self.func.all_blocks()?;
        self.journal.push(Step::BlockCut(block, blocks))?;
        match cut_off(&mut self.func, self.alloc, block, at as usize) {
            Ok(end) => Ok(end),
            Err(e) => {
                self.journal.pop();
                Err(e)
            }
        }
    }

    /// Puts blocks into a region, before the one at a place or at the end.
    pub fn put_blocks_in(
        &mut self,
        region: RegionId,
        at: u32,
        blocks: &[BlockId],
    ) -> Result<(), NoMemory>
        requires region { region < length self.old.now.regions }
        requires at { at ≤ length (blocks_at self.old.now region) }
        requires blocks { AllBelow (length self.old.now.blocks) blocks.now }
        ensures ok { OnOk result (self.new.now ≡ with_blocks self.old.now region (take at (blocks_at self.old.now region) ++ blocks.now ++ drop at (blocks_at self.old.now region))) }
        ensures kept { OnOk result (KeepsMarks self.old self.new) }
        ensures err { OnErr result (self.new ≡ self.old) }
    {
        let Ok(count) = u32::try_from(blocks.len()) else {
            return Err(AllocError);
        };
        self.journal.push(Step::BlocksListed(region, at, count))?;
        match list_blocks(&mut self.func, self.alloc, region, at as usize, blocks) {
            Ok(()) => Ok(()),
            Err(e) => {
                self.journal.pop();
                Err(e)
            }
        }
    }
}
