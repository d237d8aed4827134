//! Whether each number in a function's nodes names something in it.

ghost use Rattle.std.specs.Prelude.{◌≡◌, ◌&&◌, length, map};
ghost use Rattle.std.specs.List.{list_all};
ghost use Rattle.ir_arena.specs.Arena.{block_node};
ghost use Rattle.ir_arena.specs.Building.{nodes_of};
ghost use Rattle.ir_arena.specs.Closing.{are_below, is_op_within, is_block_within, is_closed};

use crate::cells::BlockCell;
use crate::fresh::Build;
use edit_list::EditList;
use flat_model::OpNode;

fn are_below(bound: usize, numbers: &[u32]) -> bool
    ensures { result ≡ are_below bound numbers.now }
{
    numbers.iter().all(|n| (*n as usize) < bound)
}

#[tactic(auto, using(crate::proofs::ClosingLaws::closing_laws))]
fn list_is_below(bound: usize, list: &EditList) -> bool
    ensures { result ≡ are_below bound list.now.list }
{
    let (front, back) = list.parts();
    are_below(bound, front) && are_below(bound, back)
}

fn op_is_within(b: &Build, node: &OpNode) -> bool
    ensures { result ≡ is_op_within (nodes_of b.now) node.now }
{
    are_below(b.types.len(), node.results.as_slice())
        && are_below(b.types.len(), node.operands.as_slice())
        && are_below(b.regions.len(), node.regions.as_slice())
        && are_below(b.blocks.len(), node.successors.as_slice())
}

fn block_is_within(b: &Build, cell: &BlockCell) -> bool
    ensures { result ≡ is_block_within (nodes_of b.now) (block_node cell.now) }
{
    are_below(b.types.len(), cell.args.as_slice()) && list_is_below(b.ops.len(), &cell.ops)
}

fn ops_are_within(b: &Build) -> bool
    ensures { result ≡ list_all (is_op_within (nodes_of b.now)) b.now.ops.items }
{
    b.ops.iter().all(|node| op_is_within(b, node))
}

fn blocks_are_within(b: &Build) -> bool
    ensures { result ≡ list_all (λ c. is_block_within (nodes_of b.now) (block_node c)) b.now.blocks.items }
{
    b.blocks.iter().all(|cell| block_is_within(b, cell))
}

fn regions_are_within(b: &Build) -> bool
    ensures { result ≡ list_all (λ c. are_below (length b.now.blocks.items) c.blocks.items) b.now.regions.items }
{
    let count = b.blocks.len();
    b.regions
        .iter()
        .all(|cell| are_below(count, cell.blocks.as_slice()))
}

/// Whether each number names something, with this operation as the one that holds all others.
#[tactic(auto, using(crate::proofs::ClosingLaws::closing_laws))]
pub fn is_closed(b: &Build, root: u32) -> bool
    ensures { result ≡ is_closed (record (nodes_of b.now) { root = root }) }
{
    ops_are_within(b)
        && blocks_are_within(b)
        && regions_are_within(b)
        && (root as usize) < b.ops.len()
}
