//! The first operation with a result that uses itself.

ghost use Rattle.std.specs.Prelude.{◌≡◌, ◌<◌, ◌↔◌, IfOk, true, false, get_or, length};
ghost use Rattle.plain_tree.specs.Ops.{plain_op};
ghost use Rattle.first_places.specs.Numbering.{is_numbered_once};
ghost use Rattle.rule_model.specs.Sites.{sites};
ghost use Rattle.block_search.specs.Reach.{rows};
ghost use Rattle.first_places.specs.First.{FirstAt};
ghost use Rattle.own_uses.specs.Own.{UsesItself};
ghost use Rattle.own_uses.specs.Ranks.{all_fall, FirstOnCycle, OnCycle};

use crate::flat::operations;
use crate::graph::edges_of;
use crate::ranks::{are_ranks, is_apart, ranks_of};
use block_search::reached;
use std::alloc::Global;
use tree_model::{NoMemory, OpTree};

fn is_marked(marks: &[bool], node: usize) -> bool
    ensures { result ≡ get_or marks.now node false }
{
    match marks.get(node) {
        Some(mark) => *mark,
        None => false,
    }
}

fn is_on_cycle(alloc: Global, edges: &[Vec<usize>], node: usize) -> Result<bool, NoMemory>
    requires { node < length edges.now }
    ensures { IfOk result (λ b. (b ≡ true) ↔ OnCycle (rows edges.now) node) }
{
    let next = edges[node].as_slice();
    let marks = reached(alloc, edges, next, edges.len())?;
    let found = marks.as_slice();
    let on = is_marked(found, node);
    Ok(on)
}

/// The same, without a search where what follows the node has a lower rank.
fn is_cyclic(
    alloc: Global,
    edges: &[Vec<usize>],
    ranks: &[usize],
    node: usize,
) -> Result<bool, NoMemory>
    requires node { node < length edges.now }
    requires right { all_fall ranks.now 0 (rows edges.now) ≡ true }
    ensures { IfOk result (λ b. (b ≡ true) ↔ OnCycle (rows edges.now) node) }
{
    let row = edges[node].as_slice();
    if is_apart(ranks, node, row) {
        return Ok(false);
    }
    let on = is_on_cycle(alloc, edges, node)?;
    Ok(on)
}

fn first_by_ranks(
    alloc: Global,
    edges: &[Vec<usize>],
    ranks: &[usize],
) -> Result<Option<usize>, NoMemory>
    requires { all_fall ranks.now 0 (rows edges.now) ≡ true }
    ensures { IfOk result (FirstOnCycle (rows edges.now)) }
{
    for node in 0..edges.len() {
        let on = is_cyclic(alloc, edges, ranks, node)?;
        if on {
            return Ok(Some(node));
        }
    }
    Ok(None)
}

fn first_by_search(alloc: Global, edges: &[Vec<usize>]) -> Result<Option<usize>, NoMemory>
    ensures { IfOk result (FirstOnCycle (rows edges.now)) }
{
    for node in 0..edges.len() {
        let on = is_on_cycle(alloc, edges, node)?;
        if on {
            return Ok(Some(node));
        }
    }
    Ok(None)
}

/// The first node on a cycle.
fn first_on_cycle(alloc: Global, edges: &[Vec<usize>]) -> Result<Option<usize>, NoMemory>
    ensures { IfOk result (FirstOnCycle (rows edges.now)) }
{
    let ranks = ranks_of(alloc, edges)?;
    if are_ranks(ranks.as_slice(), edges) {
        first_by_ranks(alloc, edges, ranks.as_slice())
    } else {
        first_by_search(alloc, edges)
    }
}

/// The number of the first operation of a function, in the order of the text, with a result that uses itself: a result uses the operands
/// of its operation and of those in the operation's regions, and what these use. None where no result does.
///
/// This takes a few passes over the uses: only an operation that is followed by one of its own component is searched from, and the first
/// such one is the answer.
pub fn first_own_use(alloc: Global, function: &OpTree) -> Result<Option<usize>, NoMemory>
    ensures { IfOk result (λ place. is_numbered_once (plain_op function.now) ≡ true → FirstAt (UsesItself (plain_op function.now)) (sites (plain_op function.now)) place) }
{
    let all = operations(alloc, function)?;
    let ops = all.as_slice();
    let edges = edges_of(alloc, ops)?;
    let edge_rows = edges.as_slice();
    let place = first_on_cycle(alloc, edge_rows)?;
    Ok(place)
}
