//! Steps on values, blocks, arguments and nodes, that are kept.

ghost use Rattle.std.specs.Prelude.{◌≡◌, ◌<◌, length, IfOk, OnOk, OnErr};
ghost use Rattle.flat_model.specs.Flat.{AllBelow};
ghost use Rattle.edit_model.specs.Writes.{with_args, with_block, with_blocks, with_value};
ghost use Rattle.undo_rewriter.specs.Journal.{KeepsMarks};

use crate::lists::held_list;
use crate::rewriter::Rewriter;
use crate::step::Step;
use flat_model::{BlockId, RegionId, ValueId};
use key_model::Handle;
use tree_model::NoMemory;

impl Rewriter {
    /// Adds a value of a type.
    pub fn add_value(&mut self, ty: Handle) -> Result<ValueId, NoMemory>
        ensures value { IfOk result (λ value. value ≡ length self.old.now.types) }
        ensures ok { OnOk result (self.new.now ≡ with_value self.old.now ty) }
        ensures kept { OnOk result (KeepsMarks self.old self.new) }
        ensures err { OnErr result (self.new ≡ self.old) }
    {
        let values = self.func.value_count()?;
        self.journal.push(Step::ValueAdded(values))?;
        match self.func.add_value(ty) {
            Ok(value) => Ok(value),
            Err(e) => {
                self.journal.pop();
                Err(e)
            }
        }
    }

    /// Adds a block without arguments and operations, which is in no region yet.
    pub fn push_block(&mut self) -> Result<BlockId, NoMemory>
        ensures block { IfOk result (λ block. block ≡ length self.old.now.blocks) }
        ensures ok { OnOk result (self.new.now ≡ with_block self.old.now) }
        ensures kept { OnOk result (KeepsMarks self.old self.new) }
        ensures err { OnErr result (self.new ≡ self.old) }
    {
        let blocks = self.func.all_blocks()?;
        self.journal.push(Step::BlockAdded(blocks))?;
        match self.func.add_block(self.alloc) {
            Ok(block) => Ok(block),
            Err(e) => {
                self.journal.pop();
                Err(e)
            }
        }
    }

    /// Gives a block other arguments.
    pub fn put_args(&mut self, block: BlockId, args: Vec<ValueId>) -> Result<(), NoMemory>
        requires block { block < length self.old.now.blocks }
        requires args { AllBelow (length self.old.now.types) args.items }
        ensures ok { OnOk result (self.new.now ≡ with_args self.old.now block args.items) }
        ensures kept { OnOk result (KeepsMarks self.old self.new) }
        ensures err { OnErr result (self.new ≡ self.old) }
    {
        let held = held_list(self.alloc, self.func.args(block))?;
        self.journal.push(Step::ArgsSet(block, held))?;
        self.func.exchange_args(block, args);
        Ok(())
    }

    /// Gives a region other blocks.
    pub fn put_blocks(&mut self, region: RegionId, blocks: Vec<BlockId>) -> Result<(), NoMemory>
        requires region { region < length self.old.now.regions }
        requires blocks { AllBelow (length self.old.now.blocks) blocks.items }
        ensures ok { OnOk result (self.new.now ≡ with_blocks self.old.now region blocks.items) }
        ensures kept { OnOk result (KeepsMarks self.old self.new) }
        ensures err { OnErr result (self.new ≡ self.old) }
    {
        let held = held_list(self.alloc, self.func.blocks(region))?;
        self.journal.push(Step::BlocksSet(region, held))?;
        self.func.exchange_blocks(region, blocks);
        Ok(())
    }
}
