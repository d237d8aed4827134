//! Ranks of the nodes of a graph, by which nodes are seen to be on no cycle without a search.

ghost use Rattle.std.specs.Prelude.{◌≡◌, nat_le, nat_lt, IfOk, OnOk, length};
ghost use Rattle.std.specs.List.{list_all};
ghost use Rattle.block_search.specs.Reach.{rows};
ghost use Rattle.own_uses.specs.Ranks.{all_fall, falls, is_apart, rank_of};

use std::alloc::Global;
use tree_model::NoMemory;

/// The rank of a node, none where it is not below the number of nodes.
fn rank_of(ranks: &[usize], node: usize) -> usize
    ensures { result ≡ rank_of ranks.now node }
{
    match ranks.get(node) {
        Some(rank) => *rank,
        None => ranks.len(),
    }
}

fn put(list: &mut Vec<usize>, place: usize, value: usize)
    ensures { length list.new.items ≡ length list.old.items }
{
    if place < list.len() {
        list[place] = value;
    }
}

fn filled(alloc: Global, count: usize) -> Result<Vec<usize>, NoMemory>
    ensures { IfOk result (λ list. length list.items ≡ count) }
{
    let mut list = Vec::with_capacity(alloc, count)?;
    for _turn in 0..count {
        list.push(count)?;
    }
    Ok(list)
}

fn no_users(alloc: Global, count: usize) -> Result<Vec<Vec<usize>>, NoMemory> {
    let mut users = Vec::with_capacity(alloc, count)?;
    for _turn in 0..count {
        users.push(Vec::new(alloc))?;
    }
    Ok(users)
}

fn note_user(users: &mut Vec<Vec<usize>>, node: usize, row: &[usize]) -> Result<(), NoMemory> {
    for next in row {
        if *next < users.len() {
            users[*next].push(node)?;
        }
    }
    Ok(())
}

/// For each node those that it follows.
fn users_of(alloc: Global, edges: &[Vec<usize>]) -> Result<Vec<Vec<usize>>, NoMemory> {
    let mut users = no_users(alloc, edges.len())?;
    for (node, row) in edges.iter().enumerate() {
        note_user(&mut users, node, row.as_slice())?;
    }
    Ok(users)
}

/// A node that is met, and all that follows it, are to be looked at before it is left.
fn enter(
    edges: &[Vec<usize>],
    seen: &mut Vec<bool>,
    stack: &mut Vec<(usize, bool)>,
    node: usize,
) -> Result<(), NoMemory> {
    if node >= edges.len() || node >= seen.len() || seen[node] {
        return Ok(());
    }
    seen[node] = true;
    stack.push((node, true))?;
    for next in edges[node].as_slice() {
        stack.push((*next, false))?;
    }
    Ok(())
}

/// Puts the nodes that a search from one meets first, each when it is left.
fn leave_all(
    alloc: Global,
    edges: &[Vec<usize>],
    seen: &mut Vec<bool>,
    order: &mut Vec<usize>,
    start: usize,
) -> Result<(), NoMemory> {
    let mut stack = Vec::new(alloc);
    stack.push((start, false))?;
    for _turn in 0..usize::MAX {
        match stack.pop() {
            None => return Ok(()),
            Some((node, true)) => order.push(node)?,
            Some((node, false)) => enter(edges, seen, &mut stack, node)?,
        }
    }
    Ok(())
}

/// All nodes in the order in which a search in depth leaves them.
fn left_in_order(alloc: Global, edges: &[Vec<usize>]) -> Result<Vec<usize>, NoMemory> {
    let mut seen = vec![in alloc; false; edges.len()]?;
    let mut order = Vec::with_capacity(alloc, edges.len())?;
    for node in 0..edges.len() {
        leave_all(alloc, edges, &mut seen, &mut order, node)?;
    }
    Ok(order)
}

fn push_row(stack: &mut Vec<usize>, edges: &[Vec<usize>], node: usize) -> Result<(), NoMemory> {
    if node < edges.len() {
        stack.extend_from_slice(edges[node].as_slice())?;
    }
    Ok(())
}

/// Gives the rank to each node without one that is reached from the start over such nodes.
fn flood(
    alloc: Global,
    edges: &[Vec<usize>],
    ranks: &mut Vec<usize>,
    start: usize,
    rank: usize,
) -> Result<(), NoMemory>
    ensures { OnOk result (length ranks.new.items ≡ length ranks.old.items) }
{
    let mut stack = Vec::new(alloc);
    stack.push(start)?;
    for _turn in 0..usize::MAX {
        let Some(node) = stack.pop() else {
            return Ok(());
        };
        if rank_of(ranks.as_slice(), node) == edges.len() {
            put(ranks, node, rank);
            push_row(&mut stack, edges, node)?;
        }
    }
    Ok(())
}

/// Ranks by which no node is followed by one of a higher rank, and two nodes have the same one exactly where each is reached from the
/// other: the components of the graph in order, by a search against the edges and one along them. That they are right is not relied
/// on: `are_ranks` looks.
pub fn ranks_of(alloc: Global, edges: &[Vec<usize>]) -> Result<Vec<usize>, NoMemory>
    ensures { IfOk result (λ ranks. length ranks.items ≡ length edges.now) }
{
    let users = users_of(alloc, edges)?;
    let order = left_in_order(alloc, users.as_slice())?;
    let mut ranks = filled(alloc, edges.len())?;
    for rank in 0..order.len() {
        let start = order[order.len() - 1 - rank];
        flood(alloc, edges, &mut ranks, start, rank)?;
    }
    Ok(ranks)
}

/// Whether a node is followed by nodes of lower rank alone.
pub fn is_apart(ranks: &[usize], node: usize, row: &[usize]) -> bool
    ensures { result ≡ is_apart ranks.now node row.now }
{
    let rank = rank_of(ranks, node);
    row.iter().all(|next| rank_of(ranks, *next) < rank)
}

/// Whether a node is followed by no node of higher rank.
fn falls(ranks: &[usize], node: usize, row: &[usize]) -> bool
    ensures { result ≡ falls ranks.now node row.now }
{
    let rank = rank_of(ranks, node);
    row.iter().all(|next| rank_of(ranks, *next) <= rank)
}

/// Whether no node is followed by one of higher rank.
pub fn are_ranks(ranks: &[usize], edges: &[Vec<usize>]) -> bool
    ensures { result ≡ all_fall ranks.now 0 (rows edges.now) }
{
    for (node, row) in edges.iter().enumerate() {
        if !falls(ranks, node, row.as_slice()) {
            return false;
        }
    }
    true
}
