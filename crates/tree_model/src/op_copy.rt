//! Copies of operations.

ghost use Rattle.std.specs.Prelude.{◌≡◌, IfOk};

use crate::attr_copy::copy_dict;
use crate::bytes::NoMemory;
use crate::op_tree::{BlockList, BlockTree, OpList, OpTree, RegionList, RegionTree, ValueList};
use crate::type_copy::copy_type;
use crate::type_tree::TypeTree;
use sqlite_items::Items;
use std::alloc::Global;

/// Copies of values with their types, in order.
pub fn copy_values(alloc: Global, values: &[(u32, TypeTree)]) -> Result<ValueList, NoMemory>
    ensures { IfOk result (λ copies. copies ≡ values.now) }
{
    let mut copies = Items::new(alloc);
    for value in values {
        copies.push((value.0, copy_type(alloc, &value.1)?))?;
    }
    Ok(copies)
}

/// A copy of an operation with all that it holds.
#[cycle(copy_op)]
pub fn copy_op(alloc: Global, op: &OpTree) -> Result<OpTree, NoMemory>
    ensures { IfOk result (λ copy. copy ≡ op.now) }
{
    Ok(OpTree {
        name: op.name.copy(alloc)?,
        results: copy_values(alloc, op.results.as_slice())?,
        operands: Items::from_slice(alloc, op.operands.as_slice())?,
        props: copy_dict(alloc, op.props.as_slice())?,
        attrs: copy_dict(alloc, op.attrs.as_slice())?,
        regions: copy_regions(alloc, op.regions.as_slice())?,
        successors: Items::from_slice(alloc, op.successors.as_slice())?,
    })
}

#[cycle(copy_op)]
fn copy_regions(alloc: Global, regions: &[RegionTree]) -> Result<RegionList, NoMemory>
    ensures { IfOk result (λ copies. copies ≡ regions.now) }
{
    let mut copies = Items::new(alloc);
    for region in regions {
        copies.push(copy_region(alloc, region)?)?;
    }
    Ok(copies)
}

#[cycle(copy_op)]
fn copy_region(alloc: Global, region: &RegionTree) -> Result<RegionTree, NoMemory>
    ensures { IfOk result (λ copy. copy ≡ region.now) }
{
    Ok(RegionTree {
        blocks: copy_blocks(alloc, region.blocks.as_slice())?,
    })
}

#[cycle(copy_op)]
fn copy_blocks(alloc: Global, blocks: &[BlockTree]) -> Result<BlockList, NoMemory>
    ensures { IfOk result (λ copies. copies ≡ blocks.now) }
{
    let mut copies = Items::new(alloc);
    for block in blocks {
        copies.push(copy_block(alloc, block)?)?;
    }
    Ok(copies)
}

#[cycle(copy_op)]
fn copy_block(alloc: Global, block: &BlockTree) -> Result<BlockTree, NoMemory>
    ensures { IfOk result (λ copy. copy ≡ block.now) }
{
    Ok(BlockTree {
        label: block.label,
        args: copy_values(alloc, block.args.as_slice())?,
        ops: copy_ops(alloc, block.ops.as_slice())?,
    })
}

#[cycle(copy_op)]
fn copy_ops(alloc: Global, ops: &[OpTree]) -> Result<OpList, NoMemory>
    ensures { IfOk result (λ copies. copies ≡ ops.now) }
{
    let mut copies = Items::new(alloc);
    for op in ops {
        copies.push(copy_op(alloc, op)?)?;
    }
    Ok(copies)
}
