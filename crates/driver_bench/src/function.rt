//! A function of many operations.

use sqlite_items::Items;
use std::alloc::Global;
use tree_model::{
    BlockTree, NoMemory, OpList, OpTree, RegionTree, TypeTree, ValueList, one, plain_op,
};

fn operation(
    alloc: Global,
    name: &[u8],
    operands: &[u32],
    results: ValueList,
) -> Result<OpTree, NoMemory> {
    let operands = Items::from_slice(alloc, operands)?;
    plain_op(alloc, name, results, operands, Items::new(alloc))
}

/// An operation that takes the index of that number and gives the next one.
fn next(alloc: Global, number: u32) -> Result<OpTree, NoMemory> {
    let results = one(alloc, (number.saturating_add(1), TypeTree::Index))?;
    operation(alloc, b"arith.extui", &[number], results)
}

fn lines(alloc: Global, count: u32) -> Result<OpList, NoMemory> {
    let mut all = Items::new(alloc);
    for number in 0..count {
        all.push(next(alloc, number)?)?;
    }
    all.push(operation(alloc, b"func.return", &[count], Items::new(alloc))?)?;
    Ok(all)
}

fn body(alloc: Global, count: u32) -> Result<BlockTree, NoMemory> {
    let args = one(alloc, (0, TypeTree::Index))?;
    let ops = lines(alloc, count)?;
    Ok(BlockTree {
        label: 0,
        args,
        ops,
    })
}

/// A function of one block with so many operations, each of which takes what the one in front gives, and a return.
pub fn many(alloc: Global, count: u32) -> Result<OpTree, NoMemory> {
    let block = body(alloc, count)?;
    let blocks = one(alloc, block)?;
    let regions = one(alloc, RegionTree { blocks })?;
    let mut f = operation(alloc, b"func.func", &[], Items::new(alloc))?;
    f.regions = regions;
    Ok(f)
}
