//! The walk through a tree, each part of which is moved to its place in the new one.
#![tactic(auto, using(crate::proofs::ChangedLayers::layers, tree_uses::proofs::RoomLaws::rooms))]

ghost use Rattle.std.specs.Prelude.{◌≡◌, ◌++◌, IfOk, OnOk, map, true, false};
ghost use Rattle.std.specs.List.{list_all};
ghost use Rattle.plain_tree.specs.Ops.{plain_op};
ghost use Rattle.conversion_model.specs.Conversion as model;
ghost use Rattle.tree_uses.specs.Edited.{plain_block, plain_region};
ghost use Rattle.new_numbers.specs.Tables.{Extends, numbering_of};
ghost use Rattle.block_casts.specs.Changed.{Said, block_changed, blocks_changed, has_none, region_changed};

use crate::args::converted;
use crate::makers::{block_of, operation, region_of};
use new_numbers::NewNumbers;
use sqlite_items::Items;
use std::alloc::Global;
use tree_model::{BlockList, BlockTree, NoMemory, OpList, OpTree, RegionList, RegionTree};
use tree_uses::turned;

fn joined(front: OpList, ops: OpList) -> Result<OpList, NoMemory>
    ensures { IfOk result (λ os. map plain_op os ≡ map plain_op front ++ map plain_op ops) }
{
    if front.is_empty() {
        return Ok(ops);
    }
    let mut list = front;
    list.append(ops)?;
    Ok(list)
}

fn has_no_regions(op: &OpTree) -> bool
    ensures { result ≡ has_none op.now }
{
    op.regions.as_slice().is_empty()
}

/// Whether no operation has regions.
#[tactic(auto)]
fn have_no_regions(ops: &[OpTree]) -> bool
    ensures { result ≡ list_all has_none ops.now }
{
    ops.iter().all(|op| has_no_regions(op))
}

/// An operation in which the arguments of each block that isn't its region's first have converted types, with casts back
/// to the old ones in front of the block's operations.
#[cycle(op_blocks)]
pub fn op_blocks(
    alloc: Global,
    bits: u32,
    numbers: &mut NewNumbers,
    op: OpTree,
) -> Result<OpTree, NoMemory>
    ensures extends { OnOk result (Extends (numbering_of numbers.old) (numbering_of numbers.new)) }
    ensures tree { IfOk result (λ o. Said (numbering_of numbers.new) (λ n. plain_op o ≡ model.op_blocks bits n (plain_op op))) }
{
    let OpTree {
        name,
        results,
        operands,
        props,
        attrs,
        regions,
        successors,
    } = op;
    let regions = regions_blocks(alloc, bits, numbers, regions)?;
    Ok(operation(name, props, attrs, results, operands, regions, successors))
}

#[cycle(op_blocks)]
fn regions_blocks(
    alloc: Global,
    bits: u32,
    numbers: &mut NewNumbers,
    regions: RegionList,
) -> Result<RegionList, NoMemory>
    ensures extends { OnOk result (Extends (numbering_of numbers.old) (numbering_of numbers.new)) }
    ensures tree { IfOk result (λ rs. Said (numbering_of numbers.new) (λ n. map plain_region rs ≡ map (region_changed bits n) (map plain_region regions))) }
{
    let mut left = turned(alloc, regions)?;
    let mut list = Items::new(alloc);
    'each: while let Some(region) = left.pop() {
        let region = one_region(alloc, bits, numbers, region)?;
        list.push(region)?;
    }
    Ok(list)
}

#[cycle(op_blocks)]
fn one_region(
    alloc: Global,
    bits: u32,
    numbers: &mut NewNumbers,
    region: RegionTree,
) -> Result<RegionTree, NoMemory>
    ensures extends { OnOk result (Extends (numbering_of numbers.old) (numbering_of numbers.new)) }
    ensures tree { IfOk result (λ r. Said (numbering_of numbers.new) (λ n. plain_region r ≡ region_changed bits n (plain_region region))) }
{
    let RegionTree { blocks } = region;
    let blocks = blocks_of_region(alloc, bits, numbers, blocks)?;
    Ok(region_of(blocks))
}

#[cycle(op_blocks)]
fn blocks_of_region(
    alloc: Global,
    bits: u32,
    numbers: &mut NewNumbers,
    blocks: BlockList,
) -> Result<BlockList, NoMemory>
    ensures extends { OnOk result (Extends (numbering_of numbers.old) (numbering_of numbers.new)) }
    ensures tree { IfOk result (λ bs. Said (numbering_of numbers.new) (λ n. map plain_block bs ≡ blocks_changed bits n true (map plain_block blocks))) }
{
    let mut left = turned(alloc, blocks)?;
    let mut list = Items::new(alloc);
    let mut is_first = true;
    'each: while let Some(block) = left.pop() {
        let block = one_block(alloc, bits, numbers, is_first, block)?;
        list.push(block)?;
        is_first = false;
    }
    Ok(list)
}

#[cycle(op_blocks)]
fn one_block(
    alloc: Global,
    bits: u32,
    numbers: &mut NewNumbers,
    is_first: bool,
    block: BlockTree,
) -> Result<BlockTree, NoMemory>
    ensures extends { OnOk result (Extends (numbering_of numbers.old) (numbering_of numbers.new)) }
    ensures tree { IfOk result (λ b. Said (numbering_of numbers.new) (λ n. plain_block b ≡ block_changed bits n is_first (plain_block block))) }
{
    if is_first {
        let block = first_block(alloc, bits, numbers, block)?;
        return Ok(block);
    }
    let block = later_block(alloc, bits, numbers, block)?;
    Ok(block)
}

#[cycle(op_blocks)]
fn first_block(
    alloc: Global,
    bits: u32,
    numbers: &mut NewNumbers,
    block: BlockTree,
) -> Result<BlockTree, NoMemory>
    ensures extends { OnOk result (Extends (numbering_of numbers.old) (numbering_of numbers.new)) }
    ensures tree { IfOk result (λ b. Said (numbering_of numbers.new) (λ n. plain_block b ≡ block_changed bits n true (plain_block block))) }
{
    let BlockTree { label, args, ops } = block;
    let ops = ops_of_block(alloc, bits, numbers, ops)?;
    Ok(block_of(label, args, ops))
}

#[cycle(op_blocks)]
fn later_block(
    alloc: Global,
    bits: u32,
    numbers: &mut NewNumbers,
    block: BlockTree,
) -> Result<BlockTree, NoMemory>
    ensures extends { OnOk result (Extends (numbering_of numbers.old) (numbering_of numbers.new)) }
    ensures tree { IfOk result (λ b. Said (numbering_of numbers.new) (λ n. plain_block b ≡ block_changed bits n false (plain_block block))) }
{
    let BlockTree { label, args, ops } = block;
    let all = converted(alloc, bits, numbers, label, args.as_slice())?;
    let ops = ops_of_block(alloc, bits, numbers, ops)?;
    let all_ops = joined(all.casts, ops)?;
    Ok(block_of(label, all.args, all_ops))
}

/// The operations of a block. Where none has regions they stay as they are.
#[cycle(op_blocks)]
fn ops_of_block(
    alloc: Global,
    bits: u32,
    numbers: &mut NewNumbers,
    ops: OpList,
) -> Result<OpList, NoMemory>
    ensures extends { OnOk result (Extends (numbering_of numbers.old) (numbering_of numbers.new)) }
    ensures tree { IfOk result (λ os. Said (numbering_of numbers.new) (λ n. map plain_op os ≡ map (model.op_blocks bits n) (map plain_op ops))) }
{
    if have_no_regions(ops.as_slice()) {
        return Ok(ops);
    }
    let mut left = turned(alloc, ops)?;
    let mut list = Items::new(alloc);
    'each: while let Some(op) = left.pop() {
        let op = op_blocks(alloc, bits, numbers, op)?;
        list.push(op)?;
    }
    Ok(list)
}
