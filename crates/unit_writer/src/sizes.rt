//! The sizes of the operations of a tree, in one walk.
#![tactic(auto, using(crate::proofs::SizeLayers::layers))]

ghost use Rattle.std.specs.Prelude.{◌≡◌, ◌++◌, ◌-◌, IfOk, OnOk, length, map, set};
ghost use Rattle.plain_tree.specs.Ops.{blocks_in, ops_in, plain_op, regions_in};
ghost use Rattle.unit_writer.specs.Pages.{block_plain, region_plain};
ghost use Rattle.unit_writer.specs.Sizes.{blocks_sizes, op_sizes, ops_sizes, regions_sizes};

use std::alloc::{AllocError, Global};
use tree_model::{BlockTree, NoMemory, OpTree, RegionTree};

/// The size of the operation that began at this place, when all in it has been seen.
fn size_from(sizes: &[u32], place: usize) -> Result<u32, NoMemory>
    ensures { IfOk result (λ n. n ≡ length sizes.now - place) }
{
    match u32::try_from(sizes.len().saturating_sub(place)) {
        Ok(size) => Ok(size),
        Err(_) => Err(AllocError),
    }
}

#[cycle(walk_op)]
fn walk_op(op: &OpTree, sizes: &mut Vec<u32>) -> Result<(), NoMemory>
    ensures { OnOk result (sizes.new.items ≡ sizes.old.items ++ op_sizes (plain_op op.now)) }
{
    let place = sizes.len();
    sizes.push(0)?;
    walk_regions(op.regions.as_slice(), sizes)?;
    let size = size_from(sizes, place)?;
    put_size(sizes, place, size);
    Ok(())
}

fn put_size(sizes: &mut Vec<u32>, place: usize, size: u32)
    ensures { sizes.new.items ≡ set sizes.old.items place size }
{
    if place < sizes.len() {
        sizes[place] = size;
    }
}

#[cycle(walk_op)]
fn walk_regions(regions: &[RegionTree], sizes: &mut Vec<u32>) -> Result<(), NoMemory>
    ensures { OnOk result (sizes.new.items ≡ sizes.old.items ++ regions_sizes (regions_in (map region_plain regions.now))) }
{
    for region in regions {
        walk_blocks(region.blocks.as_slice(), sizes)?;
    }
    Ok(())
}

#[cycle(walk_op)]
fn walk_blocks(blocks: &[BlockTree], sizes: &mut Vec<u32>) -> Result<(), NoMemory>
    ensures { OnOk result (sizes.new.items ≡ sizes.old.items ++ blocks_sizes (blocks_in (map block_plain blocks.now))) }
{
    for block in blocks {
        walk_ops(block.ops.as_slice(), sizes)?;
    }
    Ok(())
}

#[cycle(walk_op)]
fn walk_ops(ops: &[OpTree], sizes: &mut Vec<u32>) -> Result<(), NoMemory>
    ensures { OnOk result (sizes.new.items ≡ sizes.old.items ++ ops_sizes (ops_in (map plain_op ops.now))) }
{
    for op in ops {
        walk_op(op, sizes)?;
    }
    Ok(())
}

/// How many operations there are in each operation of a tree, by their numbers.
pub fn sizes_of(alloc: Global, op: &OpTree) -> Result<Vec<u32>, NoMemory>
    ensures { IfOk result (λ sizes. sizes.items ≡ op_sizes (plain_op op.now)) }
{
    let mut sizes = Vec::new(alloc);
    walk_op(op, &mut sizes)?;
    Ok(sizes)
}
