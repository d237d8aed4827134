//! The walk through a tree.
#![tactic(auto, using(crate::proofs::WalkLayers::layers))]

ghost use Rattle.std.specs.Prelude.{◌≡◌, ◌++◌, IfOk, OnOk, flat_map, map};
ghost use Rattle.plain_tree.specs.Ops.{plain_op};
ghost use Rattle.conversion_model.specs.Uses.{operations};
ghost use Rattle.tree_walk.specs.Walks.{block_list, block_plain, op_list, plain_ops, region_list, region_plain};

use std::alloc::Global;
use tree_model::{BlockTree, NoMemory, OpTree, RegionTree};

#[cycle(walk_op)]
fn walk_op<'a>(list: &mut Vec<&'a OpTree>, op: &'a OpTree) -> Result<(), NoMemory>
    ensures { OnOk result (plain_ops list.new.items ≡ plain_ops list.old.items ++ op_list (plain_op op.now)) }
{
    list.push(op)?;
    walk_regions(list, op.regions.as_slice())
}

#[cycle(walk_op)]
fn walk_regions<'a>(list: &mut Vec<&'a OpTree>, regions: &'a [RegionTree]) -> Result<(), NoMemory>
    ensures { OnOk result (plain_ops list.new.items ≡ plain_ops list.old.items ++ flat_map region_list (map region_plain regions.now)) }
{
    for region in regions {
        walk_blocks(list, region.blocks.as_slice())?;
    }
    Ok(())
}

#[cycle(walk_op)]
fn walk_blocks<'a>(list: &mut Vec<&'a OpTree>, blocks: &'a [BlockTree]) -> Result<(), NoMemory>
    ensures { OnOk result (plain_ops list.new.items ≡ plain_ops list.old.items ++ flat_map block_list (map block_plain blocks.now)) }
{
    for block in blocks {
        walk_ops(list, block.ops.as_slice())?;
    }
    Ok(())
}

#[cycle(walk_op)]
fn walk_ops<'a>(list: &mut Vec<&'a OpTree>, ops: &'a [OpTree]) -> Result<(), NoMemory>
    ensures { OnOk result (plain_ops list.new.items ≡ plain_ops list.old.items ++ flat_map op_list (map plain_op ops.now)) }
{
    for op in ops {
        walk_op(list, op)?;
    }
    Ok(())
}

/// The operations of a tree in the order of the text, an operation before those in its regions. Each one's place is its
/// number.
pub fn operations_of<'a>(alloc: Global, op: &'a OpTree) -> Result<Vec<&'a OpTree>, NoMemory>
    ensures { IfOk result (λ list. plain_ops list.items ≡ map (λ o. o.1) (operations (plain_op op.now))) }
{
    let mut list = Vec::new(alloc);
    walk_op(&mut list, op)?;
    Ok(list)
}
