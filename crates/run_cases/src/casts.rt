//! Integers in other widths, choices and constants.

use crate::pairs::PROMISES;
use crate::runs::{by_s, ends};
use small_programs::{Line, Note, Ty, constant, one_function, plain};
use std::alloc::Global;
use std::string::String;
use tree_model::{ModuleTree, NoMemory};

/// Operations that make an integer wider.
const WIDER: [&str; 4] = ["arith.extsi", "arith.extui", "llvm.sext", "llvm.zext"];

/// Operations that make one narrower.
const NARROWER: [&str; 2] = ["arith.trunci", "llvm.trunc"];

/// Operations between integers and `index`.
const INDEXED: [&str; 2] = ["arith.index_cast", "arith.index_castui"];

const CHOICES: [&str; 2] = ["arith.select", "llvm.select"];

const CONSTANTS: [&str; 2] = ["arith.constant", "llvm.mlir.constant"];

/// A width below another one.
const STEPS: [(u32, u32); 5] = [(1, 8), (8, 32), (32, 33), (33, 64), (1, 64)];

const WIDTHS: [u32; 5] = [1, 8, 32, 33, 64];

/// Numbers that are made constants of each width.
const VALUES: [i64; 5] = [0, 1, -1, 255, 1099511627776];

/// The edge values of a width.
fn edges(width: u32) -> &'static [i64] {
    match width {
        1 => &[0, -1],
        8 => &[0, 1, -1, 127, -128],
        32 => &[0, 1, -1, 2147483647, -2147483648],
        33 => &[0, 1, -1, 4294967295, -4294967296],
        _ => &[0, 1, -1, 9223372036854775807, -9223372036854775808],
    }
}

/// An operation of one integer, with its property, and its two types.
#[derive(Clone, Copy)]
struct Row<'a> {
    name: &'a str,
    note: Note<'a>,
    from: Ty,
    to: Ty,
}

/// A function `f` of one integer that returns what the operation gives.
fn tree_of(alloc: Global, row: &Row<'_>) -> Result<ModuleTree, NoMemory> {
    let args = [(0, row.from)];
    let results = [(1, row.to)];
    let line = Line {
        name: row.name.as_bytes(),
        results: &results,
        operands: &[0],
        note: row.note,
        successors: &[],
    };
    let lines = [line, plain(b"func.return", &[], &[1])];
    one_function(alloc, &args, &[row.from], &[row.to], &lines)
}

/// What the operation gives of each number.
fn write_ends(
    alloc: Global,
    out: &mut String,
    row: &Row<'_>,
    numbers: &[i64],
) -> Result<(), NoMemory> {
    let tree = tree_of(alloc, row)?;
    for n in numbers {
        let end = ends(alloc, &tree, &[*n as i128]);
        write!(out, " {n} -> {end};")?;
    }
    writeln!(out)
}

/// What the operation gives of each number where an `index` has 32 bits.
fn write_ends_32(
    alloc: Global,
    out: &mut String,
    row: &Row<'_>,
    numbers: &[i64],
) -> Result<(), NoMemory> {
    let tree = tree_of(alloc, row)?;
    for n in numbers {
        let end = by_s(alloc, &tree, &[*n as i128], 32);
        write!(out, " {n} -> {end};")?;
    }
    writeln!(out)
}

fn write_wider(alloc: Global, out: &mut String, step: (u32, u32)) -> Result<(), NoMemory> {
    let (small, wide) = step;
    for name in WIDER {
        let row = Row {
            name,
            note: Note::Nothing,
            from: Ty::Int(small),
            to: Ty::Int(wide),
        };
        write!(out, "{name} i{small} to i{wide}:")?;
        write_ends(alloc, out, &row, edges(small))?;
    }
    Ok(())
}

fn write_narrower(
    alloc: Global,
    out: &mut String,
    name: &str,
    step: (u32, u32),
) -> Result<(), NoMemory> {
    let (small, wide) = step;
    for (word, note) in PROMISES {
        let row = Row {
            name,
            note,
            from: Ty::Int(wide),
            to: Ty::Int(small),
        };
        write!(out, "{name}{word} i{wide} to i{small}:")?;
        write_ends(alloc, out, &row, edges(wide))?;
    }
    Ok(())
}

fn write_steps(alloc: Global, out: &mut String) -> Result<(), NoMemory> {
    for step in STEPS {
        write_wider(alloc, out, step)?;
        for name in NARROWER {
            write_narrower(alloc, out, name, step)?;
        }
    }
    Ok(())
}

/// Between an `index` and integers of a width, where an `index` has 64 bits.
fn write_index(alloc: Global, out: &mut String, width: u32) -> Result<(), NoMemory> {
    for name in INDEXED {
        let note = Note::Nothing;
        let (from, to) = (Ty::Int(width), Ty::Index);
        write!(out, "{name} i{width} to index of 64:")?;
        write_ends(
            alloc,
            out,
            &Row {
                name,
                note,
                from,
                to,
            },
            edges(width),
        )?;
        let (from, to) = (to, from);
        write!(out, "{name} index of 64 to i{width}:")?;
        write_ends(
            alloc,
            out,
            &Row {
                name,
                note,
                from,
                to,
            },
            edges(64),
        )?;
    }
    Ok(())
}

/// The same where it has 32 bits.
fn write_index_32(alloc: Global, out: &mut String, width: u32) -> Result<(), NoMemory> {
    for name in INDEXED {
        let note = Note::Nothing;
        let (from, to) = (Ty::Int(width), Ty::Index);
        write!(out, "{name} i{width} to index of 32:")?;
        write_ends_32(
            alloc,
            out,
            &Row {
                name,
                note,
                from,
                to,
            },
            edges(width),
        )?;
        let (from, to) = (to, from);
        write!(out, "{name} index of 32 to i{width}:")?;
        write_ends_32(
            alloc,
            out,
            &Row {
                name,
                note,
                from,
                to,
            },
            edges(32),
        )?;
    }
    Ok(())
}

/// A choice between the least and the greatest number of a width.
fn write_choice(alloc: Global, out: &mut String, name: &str, width: u32) -> Result<(), NoMemory> {
    let ty = Ty::Int(width);
    let results = [(3, ty)];
    let args = [(0, Ty::Int(1)), (1, ty), (2, ty)];
    let lines = [
        plain(name.as_bytes(), &results, &[0, 1, 2]),
        plain(b"func.return", &[], &[3]),
    ];
    let tree = one_function(alloc, &args, &[Ty::Int(1), ty, ty], &[ty], &lines)?;
    let greatest = i64::MAX >> 64u32.saturating_sub(width).min(63);
    let least = -1 - greatest;
    write!(out, "{name} of i{width}:")?;
    for first in [0, -1] {
        let end = ends(alloc, &tree, &[first, least as i128, greatest as i128]);
        write!(out, " {first} {least} {greatest} -> {end};")?;
    }
    writeln!(out)
}

/// A constant of a width.
fn constant_tree(alloc: Global, name: &str, width: u32, n: i64) -> Result<ModuleTree, NoMemory> {
    let ty = Ty::Int(width);
    let results = [(0, ty)];
    let lines = [
        constant(name.as_bytes(), &results, n, ty),
        plain(b"func.return", &[], &[0]),
    ];
    one_function(alloc, &[], &[], &[ty], &lines)
}

fn write_constants(
    alloc: Global,
    out: &mut String,
    name: &str,
    width: u32,
) -> Result<(), NoMemory> {
    write!(out, "{name} of i{width}:")?;
    for n in VALUES {
        let tree = constant_tree(alloc, name, width, n)?;
        let end = ends(alloc, &tree, &[]);
        write!(out, " {n} -> {end};")?;
    }
    writeln!(out)
}

fn write_width(alloc: Global, out: &mut String, width: u32) -> Result<(), NoMemory> {
    write_index(alloc, out, width)?;
    write_index_32(alloc, out, width)?;
    for name in CHOICES {
        write_choice(alloc, out, name, width)?;
    }
    for name in CONSTANTS {
        write_constants(alloc, out, name, width)?;
    }
    Ok(())
}

/// All rows of this kind.
pub fn write_all(alloc: Global, out: &mut String) -> Result<(), NoMemory> {
    write_steps(alloc, out)?;
    for width in WIDTHS {
        write_width(alloc, out, width)?;
    }
    Ok(())
}
