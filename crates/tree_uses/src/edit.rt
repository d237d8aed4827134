//! The edit of a tree, each part of which is moved to its place in the new one.
#![tactic(auto, using(crate::proofs::Layers::layers, crate::proofs::RoomLaws::rooms))]

ghost use Rattle.std.specs.Prelude.{◌≡◌, ◌++◌, IfOk, OnOk, [], ◌∷◌, map, reverse};
ghost use Rattle.plain_tree.specs.Ops.{plain_op};
ghost use Rattle.tree_uses.specs.Edited.{block_edited, edited, kept, plain_block, plain_region, region_edited};
ghost use Rattle.stand_ins.specs.Forests.{IsForest};
ghost use Rattle.stand_ins.specs.Tables.{forest_of, stands_for};

use crate::lists::{stand_ins_of, turned};
use crate::makers::{block_of, operation, region_of};
use crate::omits::Omits;
use sqlite_items::Items;
use stand_ins::StandIns;
use std::alloc::Global;
use tree_model::{BlockList, BlockTree, NoMemory, OpList, OpTree, RegionList, RegionTree};

/// An operation whose operands are other values, without the operations in it that are left out.
#[cycle(op_edited)]
pub fn op_edited<T: Omits>(
    alloc: Global,
    to: &StandIns,
    test: &T,
    op: OpTree,
) -> Result<OpTree, NoMemory>
    requires { IsForest (forest_of to.now) }
    ensures { IfOk result (λ o. plain_op o ≡ edited (stands_for to.now) (T.test test.now) (plain_op op)) }
{
    let OpTree {
        name,
        results,
        operands,
        props,
        attrs,
        regions,
        successors,
    } = op;
    let operands = stand_ins_of(to, operands);
    let regions = regions_edited(alloc, to, test, regions)?;
    Ok(operation(name, props, attrs, results, operands, regions, successors))
}

#[cycle(op_edited)]
fn regions_edited<T: Omits>(
    alloc: Global,
    to: &StandIns,
    test: &T,
    regions: RegionList,
) -> Result<RegionList, NoMemory>
    requires { IsForest (forest_of to.now) }
    ensures { IfOk result (λ rs. map plain_region rs ≡ map (region_edited (stands_for to.now) (T.test test.now)) (map plain_region regions)) }
{
    let mut left = regions;
    let mut done = Items::new(alloc);
    'each: while let Some(region) = left.pop() {
        let region = one_region(alloc, to, test, region)?;
        done.push(region)?;
    }
    let all = turned(alloc, done)?;
    Ok(all)
}

#[cycle(op_edited)]
fn one_region<T: Omits>(
    alloc: Global,
    to: &StandIns,
    test: &T,
    region: RegionTree,
) -> Result<RegionTree, NoMemory>
    requires { IsForest (forest_of to.now) }
    ensures { IfOk result (λ r. plain_region r ≡ region_edited (stands_for to.now) (T.test test.now) (plain_region region)) }
{
    let RegionTree { blocks } = region;
    let blocks = blocks_edited(alloc, to, test, blocks)?;
    Ok(region_of(blocks))
}

#[cycle(op_edited)]
fn blocks_edited<T: Omits>(
    alloc: Global,
    to: &StandIns,
    test: &T,
    blocks: BlockList,
) -> Result<BlockList, NoMemory>
    requires { IsForest (forest_of to.now) }
    ensures { IfOk result (λ bs. map plain_block bs ≡ map (block_edited (stands_for to.now) (T.test test.now)) (map plain_block blocks)) }
{
    let mut left = blocks;
    let mut done = Items::new(alloc);
    'each: while let Some(block) = left.pop() {
        let block = one_block(alloc, to, test, block)?;
        done.push(block)?;
    }
    let all = turned(alloc, done)?;
    Ok(all)
}

#[cycle(op_edited)]
fn one_block<T: Omits>(
    alloc: Global,
    to: &StandIns,
    test: &T,
    block: BlockTree,
) -> Result<BlockTree, NoMemory>
    requires { IsForest (forest_of to.now) }
    ensures { IfOk result (λ b. plain_block b ≡ block_edited (stands_for to.now) (T.test test.now) (plain_block block)) }
{
    let BlockTree { label, args, ops } = block;
    let last_first = ops_edited(alloc, to, test, ops)?;
    let ops = turned(alloc, last_first)?;
    Ok(block_of(label, args, ops))
}

/// The operations that are not left out, each edited, from the last to the first.
#[cycle(op_edited)]
fn ops_edited<T: Omits>(
    alloc: Global,
    to: &StandIns,
    test: &T,
    ops: OpList,
) -> Result<OpList, NoMemory>
    requires { IsForest (forest_of to.now) }
    ensures { IfOk result (λ os. map plain_op (reverse os) ≡ kept (stands_for to.now) (T.test test.now) (map plain_op ops)) }
{
    let mut left = ops;
    let mut done = Items::new(alloc);
    'each: while let Some(op) = left.pop() {
        put_edited(alloc, to, test, op, &mut done)?;
    }
    Ok(done)
}

/// An operation in front of those that are done, unless it is left out.
#[cycle(op_edited)]
fn put_edited<T: Omits>(
    alloc: Global,
    to: &StandIns,
    test: &T,
    op: OpTree,
    done: &mut OpList,
) -> Result<(), NoMemory>
    requires { IsForest (forest_of to.now) }
    ensures { OnOk result (map plain_op (reverse done.new) ≡ kept (stands_for to.now) (T.test test.now) (plain_op op ∷ []) ++ map plain_op (reverse done.old)) }
{
    if test.omits(&op) {
        return Ok(());
    }
    let op = op_edited(alloc, to, test, op)?;
    done.push(op)?;
    Ok(())
}
