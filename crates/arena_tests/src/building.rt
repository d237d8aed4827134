//! Functions that are written node by node, and put in the place of others.

ghost use Rattle.std.specs.Prelude.{◌<◌, length};

use crate::fixtures::{nested, two_blocks};
use flat_model::{NamedAttr, NamedAttrs, OpNode};
use intern_api::PlainInterner;
use ir_arena::{Func, FuncBuilder};
use sqlite_items::Items;
use std::alloc::{AllocError, Global};
use std::test::Fail;
use tree_model::{FuncTree, NoMemory};
use tree_shape::same_shape;
use undo_rewriter::Rewriter;

fn copied_entries(alloc: Global, entries: &[NamedAttr]) -> Result<NamedAttrs, NoMemory> {
    let mut copy = Items::new(alloc);
    for entry in entries {
        let name = entry.name.copy(alloc)?;
        let value = entry.value;
        copy.push(NamedAttr { name, value })?;
    }
    Ok(copy)
}

fn copied_node(alloc: Global, f: &Func, op: u32) -> Result<OpNode, NoMemory>
    requires { op < length f.now.flat.ops }
{
    let name = f.name(op).copy(alloc)?;
    let props = copied_entries(alloc, f.props(op))?;
    let attrs = copied_entries(alloc, f.attrs(op))?;
    Ok(OpNode {
        name,
        results: Items::from_slice(alloc, f.results(op))?,
        operands: Items::from_slice(alloc, f.operands(op))?,
        props,
        attrs,
        regions: Items::from_slice(alloc, f.regions(op))?,
        successors: Items::from_slice(alloc, f.successors(op))?,
    })
}

fn copy_values(f: &Func, b: &mut FuncBuilder) -> Result<(), NoMemory> {
    for value in 0..f.value_count()? {
        b.add_value(f.type_of(value))?;
    }
    Ok(())
}

fn copy_ops(alloc: Global, f: &Func, b: &mut FuncBuilder) -> Result<(), NoMemory> {
    for op in 0..f.all_ops()? {
        let node = copied_node(alloc, f, op)?;
        b.add_op(node)?;
    }
    Ok(())
}

fn copied_list(alloc: Global, f: &Func, block: u32) -> Result<Vec<u32>, NoMemory>
    requires { block < length f.now.flat.blocks }
{
    let (front, back) = f.op_parts(block);
    let mut ops = Vec::from_slice(alloc, front)?;
    ops.extend_from_slice(back)?;
    Ok(ops)
}

/// Blocks are named first, and get what they hold afterwards.
fn copy_blocks(alloc: Global, f: &Func, b: &mut FuncBuilder) -> Result<(), NoMemory> {
    for block in 0..f.all_blocks()? {
        let new = b.add_block(Vec::new(alloc), Vec::new(alloc))?;
        let args = Vec::from_slice(alloc, f.args(block))?;
        let ops = copied_list(alloc, f, block)?;
        b.fill_block(new, args, ops);
    }
    Ok(())
}

fn copy_regions(alloc: Global, f: &Func, b: &mut FuncBuilder) -> Result<(), NoMemory> {
    for region in 0..f.all_regions()? {
        let blocks = Vec::from_slice(alloc, f.blocks(region))?;
        b.add_region(blocks)?;
    }
    Ok(())
}

/// The function, written anew.
fn copied(alloc: Global, f: &Func) -> Result<Func, NoMemory> {
    let mut b = FuncBuilder::new(alloc);
    copy_values(f, &mut b)?;
    copy_ops(alloc, f, &mut b)?;
    copy_blocks(alloc, f, &mut b)?;
    copy_regions(alloc, f, &mut b)?;
    match b.finish(f.root()) {
        Some(copy) => Ok(copy),
        None => Err(AllocError),
    }
}

fn shows(alloc: Global, i: &mut PlainInterner, f: &Func, tree: &FuncTree) -> bool {
    match f.to_tree(alloc, i) {
        Ok(back) => same_shape(alloc, tree, &back) == Ok(true),
        Err(_) => false,
    }
}

fn put_copy(alloc: Global, rw: &mut Rewriter) -> bool {
    match copied(alloc, rw.func()) {
        Ok(copy) => rw.replace_func(copy).is_ok(),
        Err(_) => false,
    }
}

fn put_tree(alloc: Global, i: &mut PlainInterner, rw: &mut Rewriter, tree: &FuncTree) -> bool {
    match Func::from_tree(alloc, tree, i) {
        Ok(func) => rw.replace_func(func).is_ok(),
        Err(_) => false,
    }
}

/// A copy takes the place of the function, another function that of the copy, and all is taken back, to the empty journal.
fn replaced_and_back(
    alloc: Global,
    i: &mut PlainInterner,
    rw: &mut Rewriter,
    tree: &FuncTree,
    other: &FuncTree,
) -> bool {
    put_copy(alloc, rw)
        && shows(alloc, i, rw.func(), tree)
        && put_tree(alloc, i, rw, other)
        && shows(alloc, i, rw.func(), other)
        && rw.rollback(0) == 2
        && shows(alloc, i, rw.func(), tree)
}

fn comes_back(alloc: Global, i: &mut PlainInterner, tree: &FuncTree, other: &FuncTree) -> bool {
    match Func::from_tree(alloc, tree, i) {
        Ok(func) => {
            let mut rw = Rewriter::new(alloc, func);
            replaced_and_back(alloc, i, &mut rw, tree, other)
        }
        Err(_) => false,
    }
}

fn replaced(alloc: Global, i: &mut PlainInterner, tree: &FuncTree) -> bool {
    match two_blocks(alloc) {
        Ok(other) => comes_back(alloc, i, tree, &other),
        Err(_) => false,
    }
}

fn nested_replaced(alloc: Global, i: &mut PlainInterner) -> bool {
    match nested(alloc) {
        Ok(tree) => replaced(alloc, i, &tree),
        Err(_) => false,
    }
}

#[test]
fn a_replaced_function_comes_back(rt: HostRuntime) -> Result<(), Fail> {
    let mut i = PlainInterner::new(rt.alloc(), 16, None)?;
    assert!(rt; nested_replaced(rt.alloc(), &mut i));
    Ok(())
}

#[test]
fn numbers_that_name_nothing_are_refused(rt: HostRuntime) -> Result<(), Fail> {
    let b = FuncBuilder::new(rt.alloc());
    assert!(rt; b.finish(0).is_none());
    Ok(())
}
