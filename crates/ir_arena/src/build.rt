//! An arena from a tree.

ghost use Rattle.std.specs.Prelude.{◌≡◌, ◌<◌, length, IfOk, IfErr};
ghost use Rattle.intern_api.specs.Faults.{IsFaultUnder};
ghost use Rattle.tree_model.specs.declared.op_tree.RegionTree.{out-RegionTree};
ghost use Rattle.tree_model.specs.declared.op_tree.BlockTree.{out-BlockTree};
ghost use Rattle.flat_model.specs.Flat.{block_at, blocks_at};
ghost use Rattle.flat_model.specs.Growth.{Kept};
ghost use Rattle.flat_model.specs.Shows.{OpShows, OpsShow, RegionsShow, BlocksShow, BlockFrontShows};
ghost use Rattle.ir_arena.specs.Building.{nodes_of, BuiltBy, Names};

use crate::cells::BlockCell;
use crate::fresh::Build;
use crate::numbering::Numbers;
use crate::op_nodes::node_of;
use crate::pushing::{or_fault, push_block, push_op, push_region, pushed};
use crate::values::build_values;
use edit_list::EditList;
use intern_api::{InternFault, Interner};
use tree_model::{BlockTree, OpTree, RegionTree};

/// The node of an operation, behind those of all that it holds.
#[cycle(build)]
#[tactic(auto, using(crate::proofs::BuildLaws::build_laws))]
pub fn build_op<I: Interner>(
    b: &mut Build,
    i: &mut I,
    n: &Numbers,
    tree: &OpTree,
) -> Result<u32, InternFault>
    requires { I.ready i.old }
    ensures ready { I.ready i.new }
    ensures fixed { I.fixed i.new ≡ I.fixed i.old }
    ensures cap { I.cap i.new ≡ I.cap i.old }
    ensures kept { Kept (I.holds i.old) (I.holds i.new) }
    ensures built { BuiltBy n.now b.old b.new }
    ensures shows { IfOk result (λ op. OpShows (I.holds i.new) (Names n.now.values) (Names n.now.labels) (nodes_of b.new) op tree.now) }
    ensures fault { IfErr result (IsFaultUnder (I.cap i.old)) }
{
    let results = build_values(b, i, n, tree.results.as_slice())?;
    let regions = build_regions(b, i, n, tree.regions.as_slice())?;
    let node = node_of(i, n, b.alloc, tree, results, regions)?;
    let op = or_fault(push_op(b, node))?;
    Ok(op)
}

/// Operations in order.
#[cycle(build)]
#[tactic(auto, using(crate::proofs::BuildLaws::build_laws))]
fn build_ops<I: Interner>(
    b: &mut Build,
    i: &mut I,
    n: &Numbers,
    trees: &[OpTree],
) -> Result<Vec<u32>, InternFault>
    requires { I.ready i.old }
    ensures ready { I.ready i.new }
    ensures fixed { I.fixed i.new ≡ I.fixed i.old }
    ensures cap { I.cap i.new ≡ I.cap i.old }
    ensures kept { Kept (I.holds i.old) (I.holds i.new) }
    ensures built { BuiltBy n.now b.old b.new }
    ensures shows { IfOk result (λ ops. OpsShow (I.holds i.new) (Names n.now.values) (Names n.now.labels) (nodes_of b.new) ops.items trees.now) }
    ensures fault { IfErr result (IsFaultUnder (I.cap i.old)) }
{
    let mut places = Vec::new(b.alloc);
    for tree in trees {
        let op = build_op(b, i, n, tree)?;
        or_fault(pushed(&mut places, op))?;
    }
    Ok(places)
}

/// Regions in order.
#[cycle(build)]
#[tactic(auto, using(crate::proofs::BuildLaws::build_laws))]
fn build_regions<I: Interner>(
    b: &mut Build,
    i: &mut I,
    n: &Numbers,
    trees: &[RegionTree],
) -> Result<Vec<u32>, InternFault>
    requires { I.ready i.old }
    ensures ready { I.ready i.new }
    ensures fixed { I.fixed i.new ≡ I.fixed i.old }
    ensures cap { I.cap i.new ≡ I.cap i.old }
    ensures kept { Kept (I.holds i.old) (I.holds i.new) }
    ensures built { BuiltBy n.now b.old b.new }
    ensures shows { IfOk result (λ regions. RegionsShow (I.holds i.new) (Names n.now.values) (Names n.now.labels) (nodes_of b.new) regions.items trees.now) }
    ensures fault { IfErr result (IsFaultUnder (I.cap i.old)) }
{
    let mut places = Vec::new(b.alloc);
    for tree in trees {
        let region = build_region(b, i, n, tree)?;
        or_fault(pushed(&mut places, region))?;
    }
    Ok(places)
}

/// A region, behind its blocks.
#[cycle(build)]
#[tactic(auto, using(crate::proofs::BuildLaws::build_laws))]
fn build_region<I: Interner>(
    b: &mut Build,
    i: &mut I,
    n: &Numbers,
    tree: &RegionTree,
) -> Result<u32, InternFault>
    requires { I.ready i.old }
    ensures ready { I.ready i.new }
    ensures fixed { I.fixed i.new ≡ I.fixed i.old }
    ensures cap { I.cap i.new ≡ I.cap i.old }
    ensures kept { Kept (I.holds i.old) (I.holds i.new) }
    ensures built { BuiltBy n.now b.old b.new }
    ensures shows { IfOk result (λ region. region < length (nodes_of b.new).regions × BlocksShow (I.holds i.new) (Names n.now.values) (Names n.now.labels) (nodes_of b.new) (blocks_at (nodes_of b.new) region) (out-RegionTree tree.now).blocks) }
    ensures fault { IfErr result (IsFaultUnder (I.cap i.old)) }
{
    let blocks = build_blocks(b, i, n, tree.blocks.as_slice())?;
    let region = or_fault(push_region(b, blocks))?;
    Ok(region)
}

/// Blocks in order.
#[cycle(build)]
#[tactic(auto, using(crate::proofs::BuildLaws::build_laws))]
fn build_blocks<I: Interner>(
    b: &mut Build,
    i: &mut I,
    n: &Numbers,
    trees: &[BlockTree],
) -> Result<Vec<u32>, InternFault>
    requires { I.ready i.old }
    ensures ready { I.ready i.new }
    ensures fixed { I.fixed i.new ≡ I.fixed i.old }
    ensures cap { I.cap i.new ≡ I.cap i.old }
    ensures kept { Kept (I.holds i.old) (I.holds i.new) }
    ensures built { BuiltBy n.now b.old b.new }
    ensures shows { IfOk result (λ blocks. BlocksShow (I.holds i.new) (Names n.now.values) (Names n.now.labels) (nodes_of b.new) blocks.items trees.now) }
    ensures fault { IfErr result (IsFaultUnder (I.cap i.old)) }
{
    let mut places = Vec::new(b.alloc);
    for tree in trees {
        let block = build_block(b, i, n, tree)?;
        or_fault(pushed(&mut places, block))?;
    }
    Ok(places)
}

/// A block, behind its operations. Where its place is not that of its label the answer is want of memory.
#[cycle(build)]
#[tactic(auto, using(crate::proofs::BuildLaws::build_laws))]
fn build_block<I: Interner>(
    b: &mut Build,
    i: &mut I,
    n: &Numbers,
    tree: &BlockTree,
) -> Result<u32, InternFault>
    requires { I.ready i.old }
    ensures ready { I.ready i.new }
    ensures fixed { I.fixed i.new ≡ I.fixed i.old }
    ensures cap { I.cap i.new ≡ I.cap i.old }
    ensures kept { Kept (I.holds i.old) (I.holds i.new) }
    ensures built { BuiltBy n.now b.old b.new }
    ensures shows { IfOk result (λ block. BlockFrontShows (I.holds i.new) (Names n.now.values) (Names n.now.labels) (nodes_of b.new) block tree.now × OpsShow (I.holds i.new) (Names n.now.values) (Names n.now.labels) (nodes_of b.new) (block_at (nodes_of b.new) block).ops (out-BlockTree tree.now).ops) }
    ensures fault { IfErr result (IsFaultUnder (I.cap i.old)) }
{
    let args = build_values(b, i, n, tree.args.as_slice())?;
    let ops = build_ops(b, i, n, tree.ops.as_slice())?;
    let ops = EditList::from_vec(ops);
    let block = or_fault(push_block(b, BlockCell { args, ops }))?;
    if n.labels.place(tree.label) == Some(block) {
        Ok(block)
    } else {
        Err(InternFault::NoMemory)
    }
}
