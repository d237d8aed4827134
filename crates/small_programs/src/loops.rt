//! Programs with loops of the structured level.

use crate::lines::{
    Line, Note, Ty, add, block, constant, declared, defined, hold, holding, module, plain,
};
use std::alloc::Global;
use tree_model::{ModuleTree, NoMemory, one};

const I: Ty = Ty::Int(32);

const N: Ty = Ty::Index;

/// A function `f` that counts from -2 to 3 by a step, carries 0 and adds 5 in each round.
pub fn loop_by(alloc: Global, step: i64) -> Result<ModuleTree, NoMemory> {
    let round = [
        constant(b"arith.constant", &[(11, I)], 5, I),
        plain(b"arith.addi", &[(12, I)], &[10, 11]),
        plain(b"scf.yield", &[], &[12]),
    ];
    let body = block(alloc, 1, &[(9, N), (10, I)], &round)?;
    let first = [
        constant(b"arith.constant", &[(0, N)], -2, N),
        constant(b"arith.constant", &[(1, N)], 3, N),
        constant(b"arith.constant", &[(2, N)], step, N),
        constant(b"arith.constant", &[(3, I)], 0, I),
    ];
    let mut entry = block(alloc, 0, &[], &first)?;
    let holder = plain(b"scf.for", &[(4, I)], &[0, 1, 2, 3]);
    entry.ops.push(holding(alloc, &holder, body)?)?;
    add(alloc, &mut entry, &[plain(b"func.return", &[], &[4])])?;
    module(alloc, defined(alloc, b"f", &[], &[I], one(alloc, entry)?)?)
}

/// A function `f` that counts from its first argument to its second by its third, all of this type, and returns the number of rounds.
pub fn counted(alloc: Global, ty: Ty) -> Result<ModuleTree, NoMemory> {
    let round = [
        plain(b"arith.addi", &[(11, I)], &[10, 4]),
        plain(b"scf.yield", &[], &[11]),
    ];
    let body = block(alloc, 1, &[(9, ty), (10, I)], &round)?;
    let first = [
        constant(b"arith.constant", &[(3, I)], 0, I),
        constant(b"arith.constant", &[(4, I)], 1, I),
    ];
    let mut entry = block(alloc, 0, &[(0, ty), (1, ty), (2, ty)], &first)?;
    let holder = plain(b"scf.for", &[(5, I)], &[0, 1, 2, 3]);
    entry.ops.push(holding(alloc, &holder, body)?)?;
    add(alloc, &mut entry, &[plain(b"func.return", &[], &[5])])?;
    let body = one(alloc, entry)?;
    module(alloc, defined(alloc, b"f", &[ty, ty, ty], &[I], body)?)
}

/// A function `f` that counts from 0 to its argument by 1 and makes three additions in each round.
pub fn counted_s(alloc: Global) -> Result<ModuleTree, NoMemory> {
    let round = [
        plain(b"arith.addi", &[(11, N)], &[10, 9]),
        plain(b"arith.addi", &[(12, N)], &[11, 2]),
        plain(b"arith.addi", &[(13, N)], &[12, 10]),
        plain(b"scf.yield", &[], &[13]),
    ];
    let body = block(alloc, 1, &[(9, N), (10, N)], &round)?;
    let first = [
        constant(b"arith.constant", &[(1, N)], 0, N),
        constant(b"arith.constant", &[(2, N)], 1, N),
    ];
    let mut entry = block(alloc, 0, &[(0, N)], &first)?;
    let holder = plain(b"scf.for", &[(4, N)], &[1, 0, 2, 1]);
    entry.ops.push(holding(alloc, &holder, body)?)?;
    add(alloc, &mut entry, &[plain(b"func.return", &[], &[4])])?;
    let body = one(alloc, entry)?;
    module(alloc, defined(alloc, b"f", &[N], &[N], body)?)
}

/// The loop with a condition that starts at 0, goes on while below 2, tells `tick` its number and adds 1.
fn while_ticks(alloc: Global) -> Result<tree_model::OpTree, NoMemory> {
    let below = Line {
        note: Note::Predicate(2),
        ..plain(b"arith.cmpi", &[(22, Ty::Int(1))], &[20, 6])
    };
    let test = [below, plain(b"scf.condition", &[], &[22, 20])];
    let call = Line {
        note: Note::Callee(b"tick"),
        ..plain(b"func.call", &[(24, I)], &[23])
    };
    let round = [
        call,
        plain(b"arith.addi", &[(25, I)], &[23, 7]),
        plain(b"scf.yield", &[], &[25]),
    ];
    let before = block(alloc, 2, &[(20, I)], &test)?;
    let mut holder = holding(alloc, &plain(b"scf.while", &[(26, I)], &[5]), before)?;
    let after = block(alloc, 3, &[(23, I)], &round)?;
    hold(alloc, &mut holder, after)?;
    Ok(holder)
}

/// A function `f` with a loop from 0 to 2 by 1 round a loop with a condition that calls `tick`.
pub fn nested_ticks(alloc: Global) -> Result<ModuleTree, NoMemory> {
    let mut body = block(alloc, 1, &[(9, N)], &[])?;
    body.ops.push(while_ticks(alloc)?)?;
    add(alloc, &mut body, &[plain(b"scf.yield", &[], &[])])?;
    let first = [
        constant(b"arith.constant", &[(0, N)], 0, N),
        constant(b"arith.constant", &[(1, N)], 2, N),
        constant(b"arith.constant", &[(2, N)], 1, N),
        constant(b"arith.constant", &[(5, I)], 0, I),
        constant(b"arith.constant", &[(6, I)], 2, I),
        constant(b"arith.constant", &[(7, I)], 1, I),
    ];
    let mut entry = block(alloc, 0, &[], &first)?;
    let holder = plain(b"scf.for", &[], &[0, 1, 2]);
    entry.ops.push(holding(alloc, &holder, body)?)?;
    add(alloc, &mut entry, &[plain(b"func.return", &[], &[])])?;
    let body = one(alloc, entry)?;
    let mut tree = module(alloc, defined(alloc, b"f", &[], &[], body)?)?;
    tree.funcs.push(declared(alloc, b"tick", &[I], &[I])?)?;
    Ok(tree)
}
