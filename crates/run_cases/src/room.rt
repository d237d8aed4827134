//! Allocations in so many cells.

use crate::runs::by_l;
use small_programs::{Line, Note, Ty, constant, one_function, plain};
use std::alloc::Global;
use std::string::String;
use tree_model::{ModuleTree, NoMemory};

const L: Ty = Ty::Int(64);

const P: Ty = Ty::Ptr;

/// Bytes and cells.
const PLAIN: [(i64, u64); 6] = [(16, 16), (16, 15), (17, 32), (17, 31), (0, 16), (0, 15)];

/// A function `f` that allocates so many bytes.
fn plain_tree(alloc: Global, bytes: i64) -> Result<ModuleTree, NoMemory> {
    let call = Line {
        note: Note::Callee(b"malloc"),
        ..plain(b"llvm.call", &[(1, P)], &[0])
    };
    let lines = [
        constant(b"llvm.mlir.constant", &[(0, L)], bytes, L),
        call,
        plain(b"llvm.return", &[], &[]),
    ];
    one_function(alloc, &[], &[], &[], &lines)
}

/// A function `f` that allocates 1 byte and then 64 at an alignment of 64.
fn aligned_tree(alloc: Global) -> Result<ModuleTree, NoMemory> {
    let first = Line {
        note: Note::Callee(b"malloc"),
        ..plain(b"llvm.call", &[(2, P)], &[0])
    };
    let second = Line {
        note: Note::Callee(b"aligned_alloc"),
        ..plain(b"llvm.call", &[(3, P)], &[1, 1])
    };
    let lines = [
        constant(b"llvm.mlir.constant", &[(0, L)], 1, L),
        constant(b"llvm.mlir.constant", &[(1, L)], 64, L),
        first,
        second,
        plain(b"llvm.return", &[], &[]),
    ];
    one_function(alloc, &[], &[], &[], &lines)
}

fn write_plain(alloc: Global, out: &mut String) -> Result<(), NoMemory> {
    for (bytes, cells) in PLAIN {
        let tree = plain_tree(alloc, bytes)?;
        let end = by_l(alloc, &tree, &[], cells);
        writeln!(out, "malloc of {bytes} in {cells} cells: {end}")?;
    }
    Ok(())
}

fn write_aligned(alloc: Global, out: &mut String) -> Result<(), NoMemory> {
    let tree = aligned_tree(alloc)?;
    for cells in [128, 127] {
        let end = by_l(alloc, &tree, &[], cells);
        writeln!(out, "64 bytes at 64 behind 1 byte in {cells} cells: {end}")?;
    }
    Ok(())
}

/// All rows of this kind.
pub fn write_all(alloc: Global, out: &mut String) -> Result<(), NoMemory> {
    write_plain(alloc, out)?;
    write_aligned(alloc, out)
}
