//! The numbers of a tree, in the order in which the arena gets what they stand for.

use crate::numbering::{Numbering, Numbers};
use std::alloc::Global;
use tree_model::{BlockTree, NoMemory, OpTree, RegionTree, TypeTree};

/// The values by the places of their definitions, and the labels by the ends of their blocks.
#[derive(Drop)]
struct Count {
    values: Vec<u32>,
    labels: Vec<u32>,
}

/// The numbers of an operation's tree.
pub fn numbers_of(alloc: Global, tree: &OpTree) -> Result<Numbers, NoMemory> {
    let mut count = Count {
        values: Vec::new(alloc),
        labels: Vec::new(alloc),
    };
    count_op(&mut count, tree)?;
    Ok(Numbers {
        values: Numbering::of(alloc, count.values)?,
        labels: Numbering::of(alloc, count.labels)?,
    })
}

#[cycle(count)]
fn count_op(count: &mut Count, tree: &OpTree) -> Result<(), NoMemory> {
    count_values(count, tree.results.as_slice())?;
    for region in tree.regions.as_slice() {
        count_region(count, region)?;
    }
    Ok(())
}

#[cycle(count)]
fn count_region(count: &mut Count, tree: &RegionTree) -> Result<(), NoMemory> {
    for block in tree.blocks.as_slice() {
        count_block(count, block)?;
    }
    Ok(())
}

#[cycle(count)]
fn count_block(count: &mut Count, tree: &BlockTree) -> Result<(), NoMemory> {
    count_values(count, tree.args.as_slice())?;
    for op in tree.ops.as_slice() {
        count_op(count, op)?;
    }
    count.labels.push(tree.label)?;
    Ok(())
}

fn count_values(count: &mut Count, values: &[(u32, TypeTree)]) -> Result<(), NoMemory> {
    for value in values {
        count.values.push(value.0)?;
    }
    Ok(())
}
