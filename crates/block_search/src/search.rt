//! The search.

ghost use Rattle.std.specs.Prelude.{◌≡◌, ◌<◌, ◌↔◌, ℕ, false, true, [], ◌∷◌, IfOk, OnOk, get_or, length, replicate, take};
ghost use Rattle.block_search.specs.Reach.{Marks, Reached, followed, rows};

use std::alloc::{AllocError, Global};

/// So many marks that aren't set.
fn blank(alloc: Global, count: usize) -> Result<Vec<bool>, AllocError>
    ensures { IfOk result (λ marks. marks.items ≡ replicate count false) }
{
    let mut marks = Vec::with_capacity(alloc, count)?;
    for _index in 0..count {
        marks.push(false)?;
    }
    Ok(marks)
}

/// Puts a node behind the others, where it has no mark yet.
fn mark(marks: &mut Vec<bool>, order: &mut Vec<usize>, node: usize) -> Result<(), AllocError>
    ensures { OnOk result (Marks marks.old.items order.old.items (node ∷ []) marks.new.items order.new.items) }
{
    if node >= marks.len() {
        return Ok(());
    }
    if marks[node] {
        return Ok(());
    }
    marks[node] = true;
    order.push(node)?;
    Ok(())
}

fn mark_all(
    marks: &mut Vec<bool>,
    order: &mut Vec<usize>,
    nodes: &[usize],
) -> Result<(), AllocError>
    ensures { OnOk result (Marks marks.old.items order.old.items nodes.now marks.new.items order.new.items) }
{
    for node in nodes {
        mark(marks, order, *node)?;
    }
    Ok(())
}

/// Marks what follows a node, but for the one that is left out.
fn follow(
    marks: &mut Vec<bool>,
    order: &mut Vec<usize>,
    edges: &[Vec<usize>],
    left_out: usize,
    node: usize,
) -> Result<(), AllocError>
    ensures { OnOk result (Marks marks.old.items order.old.items (followed (rows edges.now) left_out node) marks.new.items order.new.items) }
{
    if node == left_out {
        return Ok(());
    }
    if node >= edges.len() {
        return Ok(());
    }
    mark_all(marks, order, edges[node].as_slice())
}

/// For each node of a graph, by the list of those that follow it, whether it is reached from the starts. What follows the node that
/// is left out isn't looked at. A number that is no node counts for nothing.
pub fn reached(
    alloc: Global,
    edges: &[Vec<usize>],
    starts: &[usize],
    left_out: usize,
) -> Result<Vec<bool>, AllocError>
    ensures size { IfOk result (λ marks. length marks.items ≡ length edges.now) }
    ensures exact { IfOk result (λ marks. (n : ℕ) → n < length edges.now → (get_or marks.items n false ≡ true) ↔ Reached (followed (rows edges.now) left_out) starts.now n) }
{
    let mut marks = blank(alloc, edges.len())?;
    let mut order = Vec::new(alloc);
    mark_all(&mut marks, &mut order, starts)?;
    let mut place = 0;
    while place < order.len() {
        let node = order[place];
        follow(&mut marks, &mut order, edges, left_out, node)?;
        place += 1;
    }
    Ok(marks)
}
