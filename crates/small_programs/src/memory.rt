//! Programs in which memrefs and values that were never set go through calls and branches.

use crate::lines::{Line, Note, Ty, add, block, constant, declared, defined, module, plain};
use crate::straight::one_function;
use sqlite_items::Items;
use std::alloc::Global;
use tree_model::{FuncTree, ModuleTree, NoMemory, one};

const I: Ty = Ty::Int(32);

const N: Ty = Ty::Index;

const M: Ty = Ty::Memref(32);

const B: Ty = Ty::Int(1);

/// The function `fill`: it stores 7 in the first element and returns the memref and 5.
fn fill(alloc: Global) -> Result<FuncTree, NoMemory> {
    let lines = [
        constant(b"arith.constant", &[(1, N)], 0, N),
        constant(b"arith.constant", &[(2, I)], 7, I),
        constant(b"arith.constant", &[(3, I)], 5, I),
        plain(b"memref.store", &[], &[2, 0, 1]),
        plain(b"func.return", &[], &[0, 3]),
    ];
    let body = one(alloc, block(alloc, 0, &[(0, M)], &lines)?)?;
    defined(alloc, b"fill", &[M], &[M, I], body)
}

/// A function `f` that hands a memref of as many elements as its argument says to `fill`, and returns the sum of the first element and the
/// number that `fill` returns.
pub fn handed_over(alloc: Global) -> Result<ModuleTree, NoMemory> {
    let call = Line {
        note: Note::Callee(b"fill"),
        ..plain(b"func.call", &[(2, M), (3, I)], &[1])
    };
    let lines = [
        plain(b"memref.alloc", &[(1, M)], &[0]),
        call,
        constant(b"arith.constant", &[(4, N)], 0, N),
        plain(b"memref.load", &[(5, I)], &[2, 4]),
        plain(b"memref.dealloc", &[], &[2]),
        plain(b"arith.addi", &[(6, I)], &[5, 3]),
        plain(b"func.return", &[], &[6]),
    ];
    let mut tree = one_function(alloc, &[(0, N)], &[N], &[I], &lines)?;
    tree.funcs.push(fill(alloc)?)?;
    Ok(tree)
}

/// A function `f` that calls the declared `tick` with a number that was never set.
pub fn unset_told(alloc: Global) -> Result<ModuleTree, NoMemory> {
    let call = Line {
        note: Note::Callee(b"tick"),
        ..plain(b"func.call", &[(1, I)], &[0])
    };
    let lines = [
        plain(b"llvm.mlir.undef", &[(0, I)], &[]),
        call,
        plain(b"func.return", &[], &[1]),
    ];
    let mut tree = one_function(alloc, &[], &[], &[I], &lines)?;
    tree.funcs.push(declared(alloc, b"tick", &[I], &[I])?)?;
    Ok(tree)
}

/// A function `f` that branches on a condition that was never set.
pub fn unset_branch(alloc: Global) -> Result<ModuleTree, NoMemory> {
    let branch = Line {
        note: Note::Segments(&[1, 0, 0]),
        successors: &[1, 1],
        ..plain(b"llvm.cond_br", &[], &[0])
    };
    let mut first = block(alloc, 0, &[], &[plain(b"llvm.mlir.undef", &[(0, B)], &[])])?;
    add(alloc, &mut first, &[branch])?;
    let mut blocks = Items::new(alloc);
    blocks.push(first)?;
    blocks.push(block(alloc, 1, &[], &[plain(b"llvm.return", &[], &[])])?)?;
    module(alloc, defined(alloc, b"f", &[], &[], blocks)?)
}

/// A function `f` that hands a number that was never set to a block, which doesn't look at it.
pub fn unset_moved(alloc: Global) -> Result<ModuleTree, NoMemory> {
    let branch = Line {
        successors: &[1],
        ..plain(b"llvm.br", &[], &[0])
    };
    let mut first = block(alloc, 0, &[], &[plain(b"llvm.mlir.undef", &[(0, I)], &[])])?;
    add(alloc, &mut first, &[branch])?;
    let mut blocks = Items::new(alloc);
    blocks.push(first)?;
    blocks.push(block(alloc, 1, &[(1, I)], &[plain(b"llvm.return", &[], &[])])?)?;
    module(alloc, defined(alloc, b"f", &[], &[], blocks)?)
}
