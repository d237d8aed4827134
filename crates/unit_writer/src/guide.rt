//! What a function is written by.
#![tactic(auto, using(crate::proofs::Layers::block_layers))]

ghost use Rattle.std.specs.Prelude.{◌≡◌, ◌+◌, IfOk, false, get_or, map};
ghost use Rattle.std.specs.Str.{bytes_eq};
ghost use Rattle.conversion_model.specs.Targets.{goes_with_holder};
ghost use Rattle.conversion_model.specs.Templates.{copy_name};
ghost use Rattle.plain_tree.specs.Ops.{blocks_in, ops_in, plain_op};
ghost use Rattle.unit_writer.specs.Sizes.{behind_blocks as numbers_behind, behind_ops};
ghost use Rattle.unit_slots.specs.declared.slots.Slot.TheVariants.{Keeps};
ghost use Rattle.unit_writer.specs.Pages.{block_plain};
ghost use Rattle.unit_writer.specs.Says.{slot_or};

use std::alloc::{AllocError, Global};
use tree_model::{BlockTree, Name, NoMemory, OpTree};
use unit_slots::Slot;

/// What stands for each operation, and how many operations there are in each, by their numbers.
#[derive(Drop)]
pub struct Guide<'a> {
    pub alloc: Global,
    pub slots: &'a [Slot],
    pub sizes: &'a [u32],
}

/// The sum, where 32 bits hold it.
pub fn sum(a: u32, b: u32) -> Result<u32, NoMemory>
    ensures { IfOk result (λ n. n ≡ a + b) }
{
    match a.checked_add(b) {
        Some(sum) => Ok(sum),
        None => Err(AllocError),
    }
}

/// Whether an operation's name is of those that go with the operation that holds them.
pub fn goes_with_its_holder(name: &Name) -> bool
    ensures { result ≡ goes_with_holder name.now }
{
    name.as_slice() == b"scf.yield".as_slice() || name.as_slice() == b"scf.condition".as_slice()
}

/// No operation of code has a copy's name, since no byte is 256.
pub fn no_copy(name: &Name)
    ensures { bytes_eq name.now copy_name ≡ false }
{
    if let [byte] = name.as_slice() {
        let _byte = *byte;
    }
}

impl<'a> Guide<'a> {
    /// What stands for the operation with this number; where there is no slot, it is kept.
    pub fn slot(&self, number: u32) -> Option<&'a Slot>
        ensures { slot_or result ≡ get_or self.now.slots.now number Keeps }
    {
        self.slots.get(number as usize)
    }

    /// How many operations there are in the one with this number.
    pub fn size(&self, number: u32) -> u32
        ensures { result ≡ get_or self.now.sizes.now number 0 }
    {
        match self.sizes.get(number as usize) {
            Some(size) => *size,
            None => 0,
        }
    }

    /// The number behind operations, the first of which has this one.
    pub fn behind(&self, ops: &[OpTree], number: u32) -> Result<u32, NoMemory>
        ensures { IfOk result (λ n. n ≡ behind_ops self.now.sizes.now number (ops_in (map plain_op ops.now))) }
    {
        let mut number = number;
        for _op in ops {
            number = sum(number, self.size(number))?;
        }
        Ok(number)
    }

    /// The number behind blocks, the first operation in which has this one.
    pub fn behind_blocks(&self, blocks: &[BlockTree], number: u32) -> Result<u32, NoMemory>
        ensures { IfOk result (λ n. n ≡ numbers_behind self.now.sizes.now number (blocks_in (map block_plain blocks.now))) }
    {
        let mut number = number;
        for block in blocks {
            number = self.behind(block.ops.as_slice(), number)?;
        }
        Ok(number)
    }
}
