//! Programs with branches and calls.

use crate::lines::{Line, Note, Ty, block, constant, defined, module, plain};
use sqlite_items::Items;
use std::alloc::Global;
use tree_model::{BlockTree, ModuleTree, NoMemory};

const I: Ty = Ty::Int(32);

const L: Ty = Ty::Int(64);

const B: Ty = Ty::Int(1);

/// A function `f` that is 0 at 0 and else one more than itself at one less.
pub fn descent(alloc: Global) -> Result<ModuleTree, NoMemory> {
    let equal = Line {
        note: Note::Predicate(0),
        ..plain(b"arith.cmpi", &[(3, B)], &[0, 1])
    };
    let branch = Line {
        note: Note::Segments(&[1, 0, 0]),
        successors: &[1, 2],
        ..plain(b"cf.cond_br", &[], &[3])
    };
    let first = [
        constant(b"arith.constant", &[(1, I)], 0, I),
        constant(b"arith.constant", &[(2, I)], 1, I),
        equal,
        branch,
    ];
    let call = Line {
        note: Note::Callee(b"f"),
        ..plain(b"func.call", &[(5, I)], &[4])
    };
    let deeper = [
        plain(b"arith.subi", &[(4, I)], &[0, 2]),
        call,
        plain(b"arith.addi", &[(6, I)], &[5, 2]),
        plain(b"func.return", &[], &[6]),
    ];
    let mut blocks = Items::new(alloc);
    blocks.push(block(alloc, 0, &[(0, I)], &first)?)?;
    blocks.push(block(alloc, 1, &[], &[plain(b"func.return", &[], &[1])])?)?;
    blocks.push(block(alloc, 2, &[], &deeper)?)?;
    module(alloc, defined(alloc, b"f", &[I], &[I], blocks)?)
}

/// The first two blocks of the counted loop: its start and its test.
fn counted_head(alloc: Global, blocks: &mut Items<BlockTree>) -> Result<(), NoMemory> {
    let go = Line {
        successors: &[1],
        ..plain(b"llvm.br", &[], &[1, 1])
    };
    let first = [
        constant(b"llvm.mlir.constant", &[(1, L)], 0, L),
        constant(b"llvm.mlir.constant", &[(2, L)], 1, L),
        go,
    ];
    let below = Line {
        note: Note::Predicate(2),
        ..plain(b"llvm.icmp", &[(5, B)], &[3, 0])
    };
    let branch = Line {
        note: Note::Segments(&[1, 0, 0]),
        successors: &[2, 3],
        ..plain(b"llvm.cond_br", &[], &[5])
    };
    blocks.push(block(alloc, 0, &[(0, L)], &first)?)?;
    blocks.push(block(alloc, 1, &[(3, L), (4, L)], &[below, branch])?)?;
    Ok(())
}

/// A function `f` of llvm operations that counts from 0 to its argument by 1 and makes three additions in each round, as the loop of the
/// structured level is lowered.
pub fn counted_l(alloc: Global) -> Result<ModuleTree, NoMemory> {
    let go = Line {
        successors: &[1],
        ..plain(b"llvm.br", &[], &[9, 8])
    };
    let round = [
        plain(b"llvm.add", &[(6, L)], &[4, 3]),
        plain(b"llvm.add", &[(7, L)], &[6, 2]),
        plain(b"llvm.add", &[(8, L)], &[7, 4]),
        plain(b"llvm.add", &[(9, L)], &[3, 2]),
        go,
    ];
    let mut blocks = Items::new(alloc);
    counted_head(alloc, &mut blocks)?;
    blocks.push(block(alloc, 2, &[], &round)?)?;
    blocks.push(block(alloc, 3, &[], &[plain(b"llvm.return", &[], &[4])])?)?;
    module(alloc, defined(alloc, b"f", &[L], &[L], blocks)?)
}
