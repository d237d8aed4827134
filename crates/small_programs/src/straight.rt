//! Programs without loops.

use crate::lines::{Line, Note, Ty, block, constant, declared, defined, module, plain};
use std::alloc::Global;
use tree_model::{ModuleTree, NoMemory, one};

const I: Ty = Ty::Int(32);

/// A function `f` of one block. It returns by the last line.
pub fn one_function(
    alloc: Global,
    args: &[(u32, Ty)],
    inputs: &[Ty],
    outputs: &[Ty],
    lines: &[Line<'_>],
) -> Result<ModuleTree, NoMemory> {
    let body = one(alloc, block(alloc, 0, args, lines)?)?;
    module(alloc, defined(alloc, b"f", inputs, outputs, body)?)
}

/// A function `f` that returns what an operation gives for two integers of a width. The dialect of the other lines is that of the
/// structured level.
pub fn binary(
    alloc: Global,
    name: &[u8],
    width: u32,
    first: i64,
    second: i64,
) -> Result<ModuleTree, NoMemory> {
    let ty = Ty::Int(width);
    let results = [(0, ty), (1, ty), (2, ty)];
    let lines = [
        constant(b"arith.constant", &results[0..1], first, ty),
        constant(b"arith.constant", &results[1..2], second, ty),
        plain(name, &results[2..3], &[0, 1]),
        plain(b"func.return", &[], &[2]),
    ];
    one_function(alloc, &[], &[], &[ty], &lines)
}

/// A function `f` that calls the declared `tick` with 7 and returns what that answers.
pub fn ticks(alloc: Global) -> Result<ModuleTree, NoMemory> {
    let call = Line {
        note: Note::Callee(b"tick"),
        ..plain(b"func.call", &[(1, I)], &[0])
    };
    let lines = [
        constant(b"arith.constant", &[(0, I)], 7, I),
        call,
        plain(b"func.return", &[], &[1]),
    ];
    let mut tree = one_function(alloc, &[], &[], &[I], &lines)?;
    tree.funcs.push(declared(alloc, b"tick", &[I], &[I])?)?;
    Ok(tree)
}
