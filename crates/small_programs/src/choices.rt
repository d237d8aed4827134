//! Programs with regions that are chosen.

use crate::lines::{
    Line, Note, Ty, add, block, constant, declared, defined, hold, holding, module, op, plain,
};
use sqlite_items::Items;
use std::alloc::Global;
use tree_model::{BlockTree, ModuleTree, NoMemory, OpTree, RegionTree, one};

const I: Ty = Ty::Int(32);

const N: Ty = Ty::Index;

const B: Ty = Ty::Int(1);

/// A block that yields this number.
fn yields(alloc: Global, label: u32, number: u32, value: i64) -> Result<BlockTree, NoMemory> {
    let results = [(number, I)];
    let operands = [number];
    let lines = [
        constant(b"arith.constant", &results, value, I),
        plain(b"scf.yield", &[], &operands),
    ];
    block(alloc, label, &[], &lines)
}

/// A function `f` of one argument that returns the one result of an operation, which has the number 1.
fn returning(alloc: Global, input: Ty, holder: OpTree) -> Result<ModuleTree, NoMemory> {
    let mut entry = block(alloc, 0, &[(0, input)], &[])?;
    entry.ops.push(holder)?;
    add(alloc, &mut entry, &[plain(b"func.return", &[], &[1])])?;
    let body = one(alloc, entry)?;
    module(alloc, defined(alloc, b"f", &[input], &[I], body)?)
}

/// A function `f` that returns 10 where its argument is 1 and else 20.
pub fn if_else(alloc: Global) -> Result<ModuleTree, NoMemory> {
    let line = plain(b"scf.if", &[(1, I)], &[0]);
    let mut holder = holding(alloc, &line, yields(alloc, 1, 10, 10)?)?;
    hold(alloc, &mut holder, yields(alloc, 2, 11, 20)?)?;
    returning(alloc, B, holder)
}

/// A function `f` that calls `tick` with 3 where its argument is 1, and then returns nothing.
pub fn if_alone(alloc: Global) -> Result<ModuleTree, NoMemory> {
    let call = Line {
        note: Note::Callee(b"tick"),
        ..plain(b"func.call", &[(11, I)], &[10])
    };
    let lines = [
        constant(b"arith.constant", &[(10, I)], 3, I),
        call,
        plain(b"scf.yield", &[], &[]),
    ];
    let mut entry = block(alloc, 0, &[(0, B)], &[])?;
    let mut holder = holding(
        alloc,
        &plain(b"scf.if", &[], &[0]),
        block(alloc, 1, &[], &lines)?,
    )?;
    let blocks = Items::new(alloc);
    holder.regions.push(RegionTree { blocks })?;
    entry.ops.push(holder)?;
    add(alloc, &mut entry, &[plain(b"func.return", &[], &[])])?;
    let body = one(alloc, entry)?;
    let mut tree = module(alloc, defined(alloc, b"f", &[B], &[], body)?)?;
    tree.funcs.push(declared(alloc, b"tick", &[I], &[I])?)?;
    Ok(tree)
}

/// A function `f` that returns 30 at 3, 40 at -1 and else 50.
pub fn switched(alloc: Global) -> Result<ModuleTree, NoMemory> {
    let line = Line {
        note: Note::Cases(&[3, -1]),
        ..plain(b"scf.index_switch", &[(1, I)], &[0])
    };
    let mut holder = holding(alloc, &line, yields(alloc, 1, 10, 50)?)?;
    hold(alloc, &mut holder, yields(alloc, 2, 11, 30)?)?;
    hold(alloc, &mut holder, yields(alloc, 3, 12, 40)?)?;
    returning(alloc, N, holder)
}

/// A function `f` that returns 60 where its argument is 1 and else 70, by a region of three blocks.
pub fn executed(alloc: Global) -> Result<ModuleTree, NoMemory> {
    let branch = Line {
        note: Note::Segments(&[1, 0, 0]),
        successors: &[2, 3],
        ..plain(b"cf.cond_br", &[], &[0])
    };
    let mut blocks = one(alloc, block(alloc, 1, &[], &[branch])?)?;
    blocks.push(yields(alloc, 2, 10, 60)?)?;
    blocks.push(yields(alloc, 3, 11, 70)?)?;
    let mut holder = op(alloc, &plain(b"scf.execute_region", &[(1, I)], &[]))?;
    holder.regions.push(RegionTree { blocks })?;
    returning(alloc, B, holder)
}
