//! Trees for the tests.

use intern_api::Interner;
use ir_arena::through_arena;
use sqlite_items::Items;
use std::alloc::Global;
use tree_model::{
    AttrTree, BlockTree, FuncTree, Name, NoMemory, OpTree, RegionTree, TypeTree, ValueList, entry,
    one,
};
use tree_shape::same_shape;

/// Values with these numbers, of integer types of these widths.
fn values(alloc: Global, pairs: &[(u32, u32)]) -> Result<ValueList, NoMemory> {
    let mut list = Items::new(alloc);
    for (value, width) in pairs {
        list.push((*value, TypeTree::Int(*width)))?;
    }
    Ok(list)
}

/// An operation without regions, which has a property and an attribute.
pub fn op(
    alloc: Global,
    name: &[u8],
    results: &[(u32, u32)],
    operands: &[u32],
    successors: &[u32],
) -> Result<OpTree, NoMemory> {
    Ok(OpTree {
        name: Name::from_slice(alloc, name)?,
        results: values(alloc, results)?,
        operands: Items::from_slice(alloc, operands)?,
        props: entry(alloc, b"value", AttrTree::Int(7, TypeTree::Int(32)))?,
        attrs: entry(alloc, b"mark", AttrTree::Unit)?,
        regions: Items::new(alloc),
        successors: Items::from_slice(alloc, successors)?,
    })
}

/// A block of two operations.
pub fn block(
    alloc: Global,
    label: u32,
    args: &[(u32, u32)],
    first: OpTree,
    second: OpTree,
) -> Result<BlockTree, NoMemory> {
    let mut ops = one(alloc, first)?;
    ops.push(second)?;
    Ok(BlockTree {
        label,
        args: values(alloc, args)?,
        ops,
    })
}

/// A function of one region with two blocks.
pub fn func(alloc: Global, entry: BlockTree, last: BlockTree) -> Result<FuncTree, NoMemory> {
    let mut tree = op(alloc, b"func.func", &[], &[], &[])?;
    let mut blocks = one(alloc, entry)?;
    blocks.push(last)?;
    tree.regions = one(alloc, RegionTree { blocks })?;
    Ok(FuncTree { op: tree })
}

/// A function whose second block is named before it stands, and whose second value is used before its definition.
pub fn two_blocks(alloc: Global) -> Result<FuncTree, NoMemory> {
    let sum = op(alloc, b"arith.addi", &[(12, 32)], &[9, 40], &[])?;
    let jump = op(alloc, b"cf.br", &[], &[12], &[5])?;
    let first = block(alloc, 8, &[(9, 32)], sum, jump)?;
    let constant = op(alloc, b"arith.constant", &[(40, 32)], &[], &[])?;
    let back = op(alloc, b"cf.br", &[], &[30], &[8])?;
    let second = block(alloc, 5, &[(30, 64)], constant, back)?;
    func(alloc, first, second)
}

/// The same with an operation that holds a region in the place of the first one.
pub fn nested(alloc: Global) -> Result<FuncTree, NoMemory> {
    let inner = op(alloc, b"arith.addi", &[(3, 32)], &[1, 1], &[])?;
    let close = op(alloc, b"scf.yield", &[], &[3], &[])?;
    let body = block(alloc, 70, &[(1, 32)], inner, close)?;
    let mut holder = op(alloc, b"scf.execute_region", &[(2, 32)], &[], &[])?;
    holder.regions = one(
        alloc,
        RegionTree {
            blocks: one(alloc, body)?,
        },
    )?;
    let end = op(alloc, b"cf.br", &[], &[2], &[71])?;
    let first = block(alloc, 60, &[], holder, end)?;
    let last = op(alloc, b"func.return", &[], &[], &[])?;
    let other = op(alloc, b"arith.constant", &[(4, 1)], &[], &[])?;
    let second = block(alloc, 71, &[(5, 32)], other, last)?;
    func(alloc, first, second)
}

/// Whether the tree comes back through the arena as the same one.
pub fn comes_back<I: Interner>(alloc: Global, tree: &FuncTree, i: &mut I) -> bool
    requires { I.ready i.old }
{
    match through_arena(alloc, tree, i) {
        Ok(back) => match same_shape(alloc, tree, &back) {
            Ok(same) => same,
            Err(_) => false,
        },
        Err(_) => false,
    }
}
