//! What is known of a region: the places of its blocks, where its values are defined, and the graph of its blocks.
#![tactic(auto, using(crate::proofs::Layers::layers))]

ghost use Rattle.std.specs.Prelude.{◌≡◌, IfOk, OnOk, length, map};
ghost use Rattle.plain_tree.specs.Ops.{blocks_in, ops_in, plain_op};
ghost use Rattle.rule_model.specs.Rows.{ends_block_as};
ghost use Rattle.value_types.specs.Trees.{plain_block};
ghost use Rattle.block_search.specs.Reach.{rows};
ghost use Rattle.use_paths.specs.Blocks.{ends_in, exits_by, graph_by, labels_from, left_at_end, stops};
ghost use Rattle.use_paths.specs.Levels.{known_of};
ghost use Rattle.use_paths.specs.Marked.{AreRight};
ghost use Rattle.first_places.specs.Tables.{nothing_yet, place_by, table_in, with_first, with_firsts};
ghost use Rattle.use_paths.specs.Views.{known_in};

use crate::homes::{Home, homes_of};
use crate::searches::Searches;
use rule_facts::shape_of;
use rule_model::Shape;
use std::alloc::Global;
use std::collections::HashMap;
use tree_model::{BlockTree, NoMemory, OpTree};

/// A region of a function.
#[derive(Drop)]
pub struct Region {
    /// The places of its blocks by their labels.
    pub places: HashMap<u32, usize>,
    pub homes: HashMap<u32, Home>,
    /// For each block how many operations are left at its first terminator, with it; 0 where it has none.
    pub ends: Vec<usize>,
    pub searches: Searches,
}

fn ends_block(shape: Option<Shape>) -> bool
    ensures { result ≡ ends_block_as shape }
{
    matches!(
        shape,
        Some(
            Shape::FuncReturn
                | Shape::LlvmReturn
                | Shape::Branch
                | Shape::BranchOn
                | Shape::Yield
                | Shape::Condition
        )
    )
}

fn stops_path(op: &OpTree) -> bool
    ensures { result ≡ stops (plain_op op.now) }
{
    ends_block(shape_of(&op.name))
}

/// The labels that a block goes on to.
fn exits(ops: &[OpTree]) -> &[u32]
    ensures { result.now ≡ exits_by (ops_in (map plain_op ops.now)) }
{
    for op in ops {
        if stops_path(op) {
            return op.successors.as_slice();
        }
    }
    &[]
}

fn left_at_end(ops: &[OpTree]) -> usize
    ensures { result ≡ left_at_end (ops_in (map plain_op ops.now)) }
{
    for (index, op) in ops.iter().enumerate() {
        if stops_path(op) {
            return ops.len() - index;
        }
    }
    0
}

fn ends_of(alloc: Global, blocks: &[BlockTree]) -> Result<Vec<usize>, NoMemory>
    ensures { IfOk result (λ ends. ends.items ≡ ends_in (blocks_in (map plain_block blocks.now))) }
{
    let mut ends = Vec::with_capacity(alloc, blocks.len())?;
    for block in blocks {
        ends.push(left_at_end(block.ops.as_slice()))?;
    }
    Ok(ends)
}

fn note_label(places: &mut HashMap<u32, usize>, label: u32, place: usize) -> Result<(), NoMemory>
    ensures { OnOk result (table_in places.new ≡ with_first (table_in places.old) label place) }
{
    if places.contains_key(&label) {
        return Ok(());
    }
    places.insert(label, place)?;
    Ok(())
}

fn places_of(alloc: Global, blocks: &[BlockTree]) -> Result<HashMap<u32, usize>, NoMemory>
    ensures { IfOk result (λ places. table_in places ≡ with_firsts nothing_yet (labels_from 0 (blocks_in (map plain_block blocks.now)))) }
{
    let mut places = HashMap::new(alloc);
    for (place, block) in blocks.iter().enumerate() {
        note_label(&mut places, block.label, place)?;
    }
    Ok(places)
}

/// The place of the first block with this label, the number of blocks where there is none.
fn place(places: &HashMap<u32, usize>, count: usize, label: u32) -> usize
    ensures { result ≡ place_by (table_in places.now) count label }
{
    match places.get(&label) {
        Some(place) => *place,
        None => count,
    }
}

fn row_of(
    alloc: Global,
    places: &HashMap<u32, usize>,
    count: usize,
    labels: &[u32],
) -> Result<Vec<usize>, NoMemory>
    ensures { IfOk result (λ row. row.items ≡ map (place_by (table_in places.now) count) labels.now) }
{
    let mut row = Vec::with_capacity(alloc, labels.len())?;
    for label in labels {
        row.push(place(places, count, *label))?;
    }
    Ok(row)
}

fn edges_of(
    alloc: Global,
    places: &HashMap<u32, usize>,
    blocks: &[BlockTree],
) -> Result<Vec<Vec<usize>>, NoMemory>
    ensures { IfOk result (λ edges. rows edges.items ≡ graph_by (place_by (table_in places.now) (length blocks.now)) (blocks_in (map plain_block blocks.now))) }
{
    let mut edges = Vec::with_capacity(alloc, blocks.len())?;
    for block in blocks {
        let labels = exits(block.ops.as_slice());
        edges.push(row_of(alloc, places, blocks.len(), labels)?)?;
    }
    Ok(edges)
}

/// What is known of the region of these blocks.
pub fn region_of(alloc: Global, blocks: &[BlockTree]) -> Result<Region, NoMemory>
    ensures known { IfOk result (λ region. known_in region ≡ known_of (blocks_in (map plain_block blocks.now))) }
    ensures right { IfOk result (λ region. AreRight (rows region.searches.edges.items) region.searches.found) }
{
    let places = places_of(alloc, blocks)?;
    let edges = edges_of(alloc, &places, blocks)?;
    let homes = homes_of(alloc, blocks)?;
    let ends = ends_of(alloc, blocks)?;
    Ok(Region {
        places,
        homes,
        ends,
        searches: Searches::new(alloc, edges),
    })
}

impl Region {
    /// The place of the first block with this label.
    pub fn place_of(&self, label: u32) -> usize
        ensures { result ≡ (known_in self.now).places label }
    {
        place(&self.places, self.searches.edges.len(), label)
    }
}
