//! The walk through a tree, each part of which is moved to its place in the new one.
#![tactic(auto, using(crate::proofs::UseLayers::layers, tree_uses::proofs::RoomLaws::rooms))]

ghost use Rattle.std.specs.Prelude.{◌≡◌, ◌++◌, IfOk, OnOk, map, reverse};
ghost use Rattle.plain_tree.specs.Ops.{plain_op};
ghost use Rattle.conversion_model.specs.Uses as model;
ghost use Rattle.tree_uses.specs.Edited.{plain_block, plain_region};
ghost use Rattle.stand_ins.specs.Forests.{IsForest};
ghost use Rattle.stand_ins.specs.Tables.{forest_of, stands_for};
ghost use Rattle.copy_uses.specs.Layered.{block_uses, region_uses};

use crate::makers::{block_of, operation, region_of};
use sqlite_items::Items;
use stand_ins::StandIns;
use std::alloc::Global;
use tree_model::{BlockList, BlockTree, IdList, NoMemory, OpList, OpTree, RegionList, RegionTree};

/// Items behind others, last first.
#[tactic(auto)]
fn turned<T: Drop>(front: Items<T>, items: Items<T>) -> Result<Items<T>, NoMemory>
    ensures { IfOk result (λ all. all ≡ front ++ reverse items) }
{
    let mut list = items;
    let mut all = front;
    while let Some(item) = list.pop() {
        all.push(item)?;
    }
    Ok(all)
}

/// The values for which these stand.
#[tactic(auto)]
fn numbers(alloc: Global, to: &mut StandIns, values: IdList) -> Result<IdList, NoMemory>
    requires { IsForest (forest_of to.old) }
    ensures forest { OnOk result (IsForest (forest_of to.new)) }
    ensures kept { OnOk result (stands_for to.new ≡ stands_for to.old) }
    ensures numbers { IfOk result (λ ns. ns ≡ map (stands_for to.old) values) }
{
    let mut list = Items::new(alloc);
    'each: for value in values.as_slice() {
        let number = to.number(*value);
        list.push(number)?;
    }
    Ok(list)
}

/// An operation whose operands are the values for which they stand.
#[cycle(op_uses)]
pub(crate) fn op_uses(alloc: Global, to: &mut StandIns, op: OpTree) -> Result<OpTree, NoMemory>
    requires { IsForest (forest_of to.old) }
    ensures forest { OnOk result (IsForest (forest_of to.new)) }
    ensures kept { OnOk result (stands_for to.new ≡ stands_for to.old) }
    ensures tree { IfOk result (λ o. plain_op o ≡ model.op_uses (stands_for to.old) (plain_op op)) }
{
    let OpTree {
        name,
        results,
        operands,
        props,
        attrs,
        regions,
        successors,
    } = op;
    let operands = numbers(alloc, to, operands)?;
    let regions = regions_uses(alloc, to, regions)?;
    Ok(operation(name, props, attrs, results, operands, regions, successors))
}

#[cycle(op_uses)]
fn regions_uses(
    alloc: Global,
    to: &mut StandIns,
    regions: RegionList,
) -> Result<RegionList, NoMemory>
    requires { IsForest (forest_of to.old) }
    ensures forest { OnOk result (IsForest (forest_of to.new)) }
    ensures kept { OnOk result (stands_for to.new ≡ stands_for to.old) }
    ensures tree { IfOk result (λ rs. map plain_region rs ≡ map (region_uses (stands_for to.old)) (map plain_region regions)) }
{
    let mut left = regions;
    let mut done = Items::new(alloc);
    'each: while let Some(region) = left.pop() {
        let region = one_region(alloc, to, region)?;
        done.push(region)?;
    }
    let all = turned(left, done)?;
    Ok(all)
}

#[cycle(op_uses)]
fn one_region(alloc: Global, to: &mut StandIns, region: RegionTree) -> Result<RegionTree, NoMemory>
    requires { IsForest (forest_of to.old) }
    ensures forest { OnOk result (IsForest (forest_of to.new)) }
    ensures kept { OnOk result (stands_for to.new ≡ stands_for to.old) }
    ensures tree { IfOk result (λ r. plain_region r ≡ region_uses (stands_for to.old) (plain_region region)) }
{
    let RegionTree { blocks } = region;
    let blocks = blocks_uses(alloc, to, blocks)?;
    Ok(region_of(blocks))
}

#[cycle(op_uses)]
fn blocks_uses(alloc: Global, to: &mut StandIns, blocks: BlockList) -> Result<BlockList, NoMemory>
    requires { IsForest (forest_of to.old) }
    ensures forest { OnOk result (IsForest (forest_of to.new)) }
    ensures kept { OnOk result (stands_for to.new ≡ stands_for to.old) }
    ensures tree { IfOk result (λ bs. map plain_block bs ≡ map (block_uses (stands_for to.old)) (map plain_block blocks)) }
{
    let mut left = blocks;
    let mut done = Items::new(alloc);
    'each: while let Some(block) = left.pop() {
        let block = one_block(alloc, to, block)?;
        done.push(block)?;
    }
    let all = turned(left, done)?;
    Ok(all)
}

#[cycle(op_uses)]
fn one_block(alloc: Global, to: &mut StandIns, block: BlockTree) -> Result<BlockTree, NoMemory>
    requires { IsForest (forest_of to.old) }
    ensures forest { OnOk result (IsForest (forest_of to.new)) }
    ensures kept { OnOk result (stands_for to.new ≡ stands_for to.old) }
    ensures tree { IfOk result (λ b. plain_block b ≡ block_uses (stands_for to.old) (plain_block block)) }
{
    let BlockTree { label, args, ops } = block;
    let ops = ops_uses(alloc, to, ops)?;
    Ok(block_of(label, args, ops))
}

#[cycle(op_uses)]
fn ops_uses(alloc: Global, to: &mut StandIns, ops: OpList) -> Result<OpList, NoMemory>
    requires { IsForest (forest_of to.old) }
    ensures forest { OnOk result (IsForest (forest_of to.new)) }
    ensures kept { OnOk result (stands_for to.new ≡ stands_for to.old) }
    ensures tree { IfOk result (λ os. map plain_op os ≡ map (model.op_uses (stands_for to.old)) (map plain_op ops)) }
{
    let mut left = ops;
    let mut done = Items::new(alloc);
    'each: while let Some(op) = left.pop() {
        let op = op_uses(alloc, to, op)?;
        done.push(op)?;
    }
    let all = turned(left, done)?;
    Ok(all)
}
