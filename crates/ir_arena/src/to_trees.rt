//! Trees of functions.

ghost use Rattle.std.specs.Prelude.{◌≡◌, ◌<◌, ℕ, List, length, IfOk};
ghost use Rattle.std.specs.List.{AllZip};
ghost use Rattle.key_model.specs.declared.key.Key.TheVariants.{OfType, OfAttr};
ghost use Rattle.tree_model.specs.declared.type_tree.TypeTree.{TypeTree};
ghost use Rattle.tree_model.specs.declared.attr_tree.AttrTree.{AttrTree};
ghost use Rattle.tree_model.specs.declared.op_tree.OpTree.{OpTree, out-OpTree};
ghost use Rattle.tree_model.specs.declared.op_tree.BlockTree.{BlockTree, out-BlockTree};
ghost use Rattle.tree_model.specs.declared.op_tree.RegionTree.{RegionTree};
ghost use Rattle.flat_model.specs.Flat.{AllBelow, op_at, block_at};
ghost use Rattle.flat_model.specs.Growth.{Kept};
ghost use Rattle.flat_model.specs.Shows.{Itself, ValueShows, EntryShows, FrontShows, BlockFrontShows, OpShows, OpsShow, RegionsShow, BlocksShow};

use crate::fronts::{front_tree, value_trees};
use crate::func::Func;
use intern_api::Interner;
use sqlite_items::Items;
use std::alloc::{AllocError, Global};
use tree_model::{BlockList, BlockTree, NoMemory, OpList, OpTree, RegionList, RegionTree};

/// An operation with all that it holds, where it has at most so many levels.
#[cycle(to_tree)]
#[tactic(auto, using(crate::proofs::ToTreeLaws::to_tree_laws))]
pub fn op_tree<I: Interner>(
    f: &Func,
    i: &mut I,
    alloc: Global,
    op: u32,
    levels: u32,
) -> Result<OpTree, NoMemory>
    requires ready { I.ready i.old }
    requires known { op < length f.now.flat.ops }
    ensures ready { I.ready i.new }
    ensures fixed { I.fixed i.new ≡ I.fixed i.old }
    ensures cap { I.cap i.new ≡ I.cap i.old }
    ensures kept { Kept (I.holds i.old) (I.holds i.new) }
    ensures tree { (t : OpTree) → OpShows (I.holds i.old) Itself Itself f.now.flat op t → IfOk result (λ r. r ≡ t) }
{
    if levels == 0 {
        return Err(AllocError);
    }
    let regions = region_trees(f, i, alloc, f.regions(op), levels - 1)?;
    front_tree(f, i, alloc, op, regions)
}

/// Regions in order.
#[cycle(to_tree)]
#[tactic(auto, using(crate::proofs::ToTreeLaws::to_tree_laws))]
fn region_trees<I: Interner>(
    f: &Func,
    i: &mut I,
    alloc: Global,
    regions: &[u32],
    levels: u32,
) -> Result<RegionList, NoMemory>
    requires ready { I.ready i.old }
    requires known { AllBelow (length f.now.flat.regions) regions.now }
    ensures ready { I.ready i.new }
    ensures fixed { I.fixed i.new ≡ I.fixed i.old }
    ensures cap { I.cap i.new ≡ I.cap i.old }
    ensures kept { Kept (I.holds i.old) (I.holds i.new) }
    ensures tree { (ts : List RegionTree) → RegionsShow (I.holds i.old) Itself Itself f.now.flat regions.now ts → IfOk result (λ r. r ≡ ts) }
{
    let mut trees = Items::new(alloc);
    for region in regions {
        let blocks = block_trees(f, i, alloc, f.blocks(*region), levels)?;
        trees.push(RegionTree { blocks })?;
    }
    Ok(trees)
}

/// Blocks in order.
#[cycle(to_tree)]
#[tactic(auto, using(crate::proofs::ToTreeLaws::to_tree_laws))]
fn block_trees<I: Interner>(
    f: &Func,
    i: &mut I,
    alloc: Global,
    blocks: &[u32],
    levels: u32,
) -> Result<BlockList, NoMemory>
    requires ready { I.ready i.old }
    requires known { AllBelow (length f.now.flat.blocks) blocks.now }
    ensures ready { I.ready i.new }
    ensures fixed { I.fixed i.new ≡ I.fixed i.old }
    ensures cap { I.cap i.new ≡ I.cap i.old }
    ensures kept { Kept (I.holds i.old) (I.holds i.new) }
    ensures tree { (ts : List BlockTree) → BlocksShow (I.holds i.old) Itself Itself f.now.flat blocks.now ts → IfOk result (λ r. r ≡ ts) }
{
    let mut trees = Items::new(alloc);
    for block in blocks {
        let tree = block_tree(f, i, alloc, *block, levels)?;
        trees.push(tree)?;
    }
    Ok(trees)
}

/// A block with its operations.
#[cycle(to_tree)]
#[tactic(auto, using(crate::proofs::ToTreeLaws::to_tree_laws))]
fn block_tree<I: Interner>(
    f: &Func,
    i: &mut I,
    alloc: Global,
    block: u32,
    levels: u32,
) -> Result<BlockTree, NoMemory>
    requires ready { I.ready i.old }
    requires known { block < length f.now.flat.blocks }
    ensures ready { I.ready i.new }
    ensures fixed { I.fixed i.new ≡ I.fixed i.old }
    ensures cap { I.cap i.new ≡ I.cap i.old }
    ensures kept { Kept (I.holds i.old) (I.holds i.new) }
    ensures tree { (t : BlockTree) → BlockFrontShows (I.holds i.old) Itself Itself f.now.flat block t → OpsShow (I.holds i.old) Itself Itself f.now.flat (block_at f.now.flat block).ops (out-BlockTree t).ops → IfOk result (λ r. r ≡ t) }
{
    let args = value_trees(f, i, alloc, f.args(block))?;
    let ops = op_trees(f, i, alloc, block, levels)?;
    Ok(BlockTree {
        label: block,
        args,
        ops,
    })
}

/// The operations of a block in order.
#[cycle(to_tree)]
#[tactic(auto, using(crate::proofs::ToTreeLaws::to_tree_laws))]
fn op_trees<I: Interner>(
    f: &Func,
    i: &mut I,
    alloc: Global,
    block: u32,
    levels: u32,
) -> Result<OpList, NoMemory>
    requires ready { I.ready i.old }
    requires known { block < length f.now.flat.blocks }
    ensures ready { I.ready i.new }
    ensures fixed { I.fixed i.new ≡ I.fixed i.old }
    ensures cap { I.cap i.new ≡ I.cap i.old }
    ensures kept { Kept (I.holds i.old) (I.holds i.new) }
    ensures tree { (ts : List OpTree) → OpsShow (I.holds i.old) Itself Itself f.now.flat (block_at f.now.flat block).ops ts → IfOk result (λ r. r ≡ ts) }
{
    let mut trees = Items::new(alloc);
    for place in 0..f.op_count(block) {
        let tree = op_tree(f, i, alloc, f.op_at(block, place), levels)?;
        trees.push(tree)?;
    }
    Ok(trees)
}
