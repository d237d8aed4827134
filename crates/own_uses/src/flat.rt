//! The operations of a function as a list.
#![tactic(auto, using(crate::proofs::Layers::layers))]

ghost use Rattle.std.specs.Prelude.{◌≡◌, [], IfOk, OnOk, map};
ghost use Rattle.plain_tree.specs.Ops.{blocks_in, ops_in, plain_op, regions_in};
ghost use Rattle.value_types.specs.Trees.{plain_block, plain_region};
ghost use Rattle.own_uses.specs.Flat.{blocks_all, grown, op_all, ops_all, regions_all};
ghost use Rattle.own_uses.specs.Views.{plain_ops};

use std::alloc::Global;
use tree_model::{BlockTree, NoMemory, OpTree, RegionTree};

#[cycle(note_op)]
fn note_op<'a>(all: &mut Vec<&'a OpTree>, op: &'a OpTree) -> Result<(), NoMemory>
    ensures { OnOk result (plain_ops all.new.items ≡ grown (plain_ops all.old.items) (op_all (plain_op op.now) [])) }
{
    all.push(op)?;
    note_regions(all, op.regions.as_slice())
}

#[cycle(note_op)]
fn note_regions<'a>(all: &mut Vec<&'a OpTree>, regions: &'a [RegionTree]) -> Result<(), NoMemory>
    ensures { OnOk result (plain_ops all.new.items ≡ grown (plain_ops all.old.items) (regions_all (regions_in (map plain_region regions.now)) [])) }
{
    for region in regions {
        note_region(all, region)?;
    }
    Ok(())
}

#[cycle(note_op)]
fn note_region<'a>(all: &mut Vec<&'a OpTree>, region: &'a RegionTree) -> Result<(), NoMemory>
    ensures { OnOk result (plain_ops all.new.items ≡ grown (plain_ops all.old.items) (blocks_all (plain_region region.now) [])) }
{
    note_blocks(all, region.blocks.as_slice())
}

#[cycle(note_op)]
fn note_blocks<'a>(all: &mut Vec<&'a OpTree>, blocks: &'a [BlockTree]) -> Result<(), NoMemory>
    ensures { OnOk result (plain_ops all.new.items ≡ grown (plain_ops all.old.items) (blocks_all (blocks_in (map plain_block blocks.now)) [])) }
{
    for block in blocks {
        note_block(all, block)?;
    }
    Ok(())
}

#[cycle(note_op)]
fn note_block<'a>(all: &mut Vec<&'a OpTree>, block: &'a BlockTree) -> Result<(), NoMemory>
    ensures { OnOk result (plain_ops all.new.items ≡ grown (plain_ops all.old.items) (ops_all (plain_block block.now).ops [])) }
{
    note_ops(all, block.ops.as_slice())
}

#[cycle(note_op)]
fn note_ops<'a>(all: &mut Vec<&'a OpTree>, ops: &'a [OpTree]) -> Result<(), NoMemory>
    ensures { OnOk result (plain_ops all.new.items ≡ grown (plain_ops all.old.items) (ops_all (ops_in (map plain_op ops.now)) [])) }
{
    for op in ops {
        note_op(all, op)?;
    }
    Ok(())
}

/// The operations of a function in the order of the text, an operation before those in its regions.
pub fn operations<'a>(alloc: Global, function: &'a OpTree) -> Result<Vec<&'a OpTree>, NoMemory>
    ensures { IfOk result (λ all. plain_ops all.items ≡ op_all (plain_op function.now) []) }
{
    let mut all = Vec::new(alloc);
    note_op(&mut all, function)?;
    Ok(all)
}
