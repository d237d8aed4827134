//! The module of a file.

ghost use Rattle.std.specs.Prelude.{◌≡◌, ◌++◌, IfOk, map};
ghost use Rattle.std.specs.Str.{bytes_eq};
ghost use Rattle.event_trees.specs.Modules as modules;
ghost use Rattle.module_trees.specs.Alone.{is_alone};

use sqlite_items::Items;
use std::alloc::{AllocError, Global};
use tree_model::{BlockTree, FuncList, FuncTree, ModuleTree, OpTree, RegionTree};

/// Whether two texts have the same bytes.
fn is_the_same(one: &[u8], other: &[u8]) -> bool
    ensures { result ≡ bytes_eq one.now other.now }
{
    one == other
}

fn is_module(op: &OpTree) -> bool
    ensures { result ≡ modules.is_module op.now }
{
    is_the_same(op.name.as_slice(), b"builtin.module")
}

/// The operations as functions.
fn funcs_of(alloc: Global, ops: Vec<OpTree>) -> Result<FuncList, AllocError>
    ensures { IfOk result (λ fs. fs ≡ modules.funcs_of ops.items) }
{
    let mut funcs = Vec::with_capacity(alloc, ops.len())?;
    'each: for op in ops {
        funcs.push(FuncTree { op })?;
    }
    Ok(Items::from_vec(funcs))
}

/// The operations of a list.
fn list_of(alloc: Global, ops: Items<OpTree>) -> Result<Vec<OpTree>, AllocError>
    ensures { IfOk result (λ all. all.items ≡ ops) }
{
    let mut left = ops;
    let mut all = Vec::with_capacity(alloc, left.len())?;
    'each: while let Some(op) = left.pop() {
        all.push(op)?;
    }
    all.reverse();
    Ok(all)
}

/// The operations of the first block, none where there is no block.
fn first_ops(alloc: Global, blocks: Items<BlockTree>) -> Result<Vec<OpTree>, AllocError>
    ensures { IfOk result (λ ops. ops.items ≡ modules.first_ops blocks) }
{
    let mut blocks = blocks;
    if blocks.len() == 0 {
        return Ok(Vec::new(alloc));
    }
    let first = blocks.remove(0);
    list_of(alloc, first.ops)
}

fn body_of(alloc: Global, regions: Items<RegionTree>) -> Result<Vec<OpTree>, AllocError>
    ensures { IfOk result (λ ops. ops.items ≡ modules.body_of regions) }
{
    let mut regions = regions;
    if regions.len() == 0 {
        return Ok(Vec::new(alloc));
    }
    let first = regions.remove(0);
    first_ops(alloc, first.blocks)
}

/// Operations in a module without attributes.
fn around(alloc: Global, ops: Vec<OpTree>) -> Result<ModuleTree, AllocError>
    ensures { IfOk result (λ m. m ≡ modules.around ops.items) }
{
    Ok(ModuleTree {
        props: Items::new(alloc),
        attrs: Items::new(alloc),
        funcs: funcs_of(alloc, ops)?,
    })
}

/// An operation as a module.
fn as_module(alloc: Global, op: OpTree) -> Result<ModuleTree, AllocError>
    ensures { IfOk result (λ m. m ≡ modules.as_module op) }
{
    let body = body_of(alloc, op.regions)?;
    Ok(ModuleTree {
        props: op.props,
        attrs: op.attrs,
        funcs: funcs_of(alloc, body)?,
    })
}

/// Whether these are a module alone.
fn is_alone(ops: &[OpTree]) -> bool
    ensures { result ≡ is_alone ops.now }
{
    match ops {
        [op] => is_module(op),
        _ => false,
    }
}

/// The module of a file with these operations.
pub fn module_of(alloc: Global, ops: Vec<OpTree>) -> Result<ModuleTree, AllocError>
    ensures { IfOk result (λ m. m ≡ modules.module_of ops.items) }
{
    if !is_alone(&ops) {
        return around(alloc, ops);
    }
    let mut ops = ops;
    match ops.pop() {
        Some(op) => as_module(alloc, op),
        None => around(alloc, ops),
    }
}
