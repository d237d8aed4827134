//! Operations of two integers.

use crate::runs::ends;
use small_programs::{Line, Note, Ty, one_function, plain};
use std::alloc::Global;
use std::string::String;
use tree_model::{ModuleTree, NoMemory};

/// Operations that may promise not to wrap.
const FLAGGED: [&str; 8] = [
    "arith.addi",
    "arith.subi",
    "arith.muli",
    "arith.shli",
    "llvm.add",
    "llvm.sub",
    "llvm.mul",
    "llvm.shl",
];

/// Promises, each with its word.
pub const PROMISES: [(&str, Note<'static>); 3] = [
    ("", Note::Nothing),
    (" nsw", Note::Promise(b"nsw")),
    (" nuw", Note::Promise(b"nuw")),
];

/// Operations without properties.
const PLAIN: [&str; 25] = [
    "arith.divsi",
    "arith.divui",
    "arith.remsi",
    "arith.remui",
    "arith.ceildivsi",
    "arith.floordivsi",
    "arith.ceildivui",
    "arith.andi",
    "arith.ori",
    "arith.xori",
    "arith.shrsi",
    "arith.shrui",
    "arith.maxsi",
    "arith.maxui",
    "arith.minsi",
    "arith.minui",
    "llvm.sdiv",
    "llvm.udiv",
    "llvm.srem",
    "llvm.urem",
    "llvm.and",
    "llvm.or",
    "llvm.xor",
    "llvm.ashr",
    "llvm.lshr",
];

/// Comparisons.
const COMPARED: [&str; 2] = ["arith.cmpi", "llvm.icmp"];

/// Predicates, each with its word.
const PREDICATES: [(&str, i64); 10] = [
    (" eq", 0),
    (" ne", 1),
    (" slt", 2),
    (" sle", 3),
    (" sgt", 4),
    (" sge", 5),
    (" ult", 6),
    (" ule", 7),
    (" ugt", 8),
    (" uge", 9),
];

/// Pairs of edge values of a width.
#[derive(Clone, Copy)]
struct Edges {
    width: u32,
    pairs: &'static [(i64, i64)],
}

const EDGES: [Edges; 5] = [
    Edges {
        width: 1,
        pairs: &[(0, 0), (0, -1), (-1, 0), (-1, -1)],
    },
    Edges {
        width: 8,
        pairs: &[
            (7, 2),
            (-7, 2),
            (7, -2),
            (-7, -2),
            (5, 0),
            (127, 1),
            (-128, -1),
            (-128, -128),
            (127, 127),
            (3, 7),
            (-1, 8),
        ],
    },
    Edges {
        width: 32,
        pairs: &[
            (7, 2),
            (-7, 2),
            (7, -2),
            (-7, -2),
            (5, 0),
            (2147483647, 1),
            (-2147483648, -1),
            (-2147483648, -2147483648),
            (2147483647, 2147483647),
            (3, 31),
            (-1, 32),
        ],
    },
    Edges {
        width: 33,
        pairs: &[
            (7, 2),
            (-7, 2),
            (7, -2),
            (-7, -2),
            (5, 0),
            (4294967295, 1),
            (-4294967296, -1),
            (-4294967296, -4294967296),
            (4294967295, 4294967295),
            (3, 32),
            (-1, 33),
        ],
    },
    Edges {
        width: 64,
        pairs: &[
            (7, 2),
            (-7, 2),
            (7, -2),
            (-7, -2),
            (5, 0),
            (9223372036854775807, 1),
            (-9223372036854775808, -1),
            (-9223372036854775808, -9223372036854775808),
            (9223372036854775807, 9223372036854775807),
            (3, 63),
            (-1, 64),
        ],
    },
];

/// An operation of two integers, with its property and a word for it, and the type of its result.
#[derive(Clone, Copy)]
struct Row<'a> {
    name: &'a str,
    word: &'a str,
    note: Note<'a>,
    gives: Ty,
}

/// A function `f` of two integers that returns what the operation gives.
fn tree_of(alloc: Global, row: &Row<'_>, ty: Ty) -> Result<ModuleTree, NoMemory> {
    let args = [(0, ty), (1, ty)];
    let results = [(2, row.gives)];
    let line = Line {
        name: row.name.as_bytes(),
        results: &results,
        operands: &[0, 1],
        note: row.note,
        successors: &[],
    };
    let lines = [line, plain(b"func.return", &[], &[2])];
    one_function(alloc, &args, &[ty, ty], &[row.gives], &lines)
}

/// A row: what the operation gives of each pair.
fn write_row(
    alloc: Global,
    out: &mut String,
    row: &Row<'_>,
    edges: &Edges,
) -> Result<(), NoMemory> {
    let tree = tree_of(alloc, row, Ty::Int(edges.width))?;
    write!(out, "i{} {}{}:", edges.width, row.name, row.word)?;
    for (first, second) in edges.pairs {
        let end = ends(alloc, &tree, &[*first as i128, *second as i128]);
        write!(out, " {first} {second} -> {end};")?;
    }
    writeln!(out)
}

/// An operation with each promise.
fn write_flagged(
    alloc: Global,
    out: &mut String,
    name: &str,
    edges: &Edges,
) -> Result<(), NoMemory> {
    for (word, note) in PROMISES {
        let row = Row {
            name,
            word,
            note,
            gives: Ty::Int(edges.width),
        };
        write_row(alloc, out, &row, edges)?;
    }
    Ok(())
}

/// An operation without properties.
fn write_plain(alloc: Global, out: &mut String, name: &str, edges: &Edges) -> Result<(), NoMemory> {
    let row = Row {
        name,
        word: "",
        note: Note::Nothing,
        gives: Ty::Int(edges.width),
    };
    write_row(alloc, out, &row, edges)
}

/// A comparison by each predicate.
fn write_compared(
    alloc: Global,
    out: &mut String,
    name: &str,
    edges: &Edges,
) -> Result<(), NoMemory> {
    for (word, number) in PREDICATES {
        let row = Row {
            name,
            word,
            note: Note::Predicate(number),
            gives: Ty::Int(1),
        };
        write_row(alloc, out, &row, edges)?;
    }
    Ok(())
}

/// All operations at one width.
fn write_width(alloc: Global, out: &mut String, edges: &Edges) -> Result<(), NoMemory> {
    for name in FLAGGED {
        write_flagged(alloc, out, name, edges)?;
    }
    for name in PLAIN {
        write_plain(alloc, out, name, edges)?;
    }
    for name in COMPARED {
        write_compared(alloc, out, name, edges)?;
    }
    Ok(())
}

/// All operations at each width.
pub fn write_all(alloc: Global, out: &mut String) -> Result<(), NoMemory> {
    for edges in &EDGES {
        write_width(alloc, out, edges)?;
    }
    Ok(())
}
