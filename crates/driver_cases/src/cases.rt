//! Cases.

use crate::passes::{converted, sample_graph};
use crate::samples::{Sample, sample_named};
use crate::tables::{put_name, put_types};
use generic_printer::put_func;
use std::alloc::Global;
use tree_model::{Bytes, FuncTree, ModuleTree, NoMemory};
use tree_reader::read_tree;
use unit_choices::UnlegalisedTree;
use unit_views::Mode;

/// The most bytes that a module has.
const MAX_TEXT: usize = 16777216;

/// What is done with a text.
#[derive(Clone, Copy, Debug)]
enum Way {
    Converts(Mode, bool),
    Graph,
}

fn way_named(word: &str) -> Option<Way> {
    match word {
        "partial" => Some(Way::Converts(Mode::Partial, false)),
        "full" => Some(Way::Converts(Mode::Full, false)),
        "blocks" => Some(Way::Converts(Mode::Partial, true)),
        "graph" => Some(Way::Graph),
        _ => None,
    }
}

fn put_unlegalised(out: &mut Bytes, at: &UnlegalisedTree) -> Result<(), NoMemory> {
    out.put(b"  operation ")?;
    out.put_number(u64::from(at.number))?;
    out.put(b" '")?;
    out.put(at.name.as_slice())?;
    out.put(b"' is not legalised\n")
}

/// A function behind a sample; where it is refused, the refusal and the function as it is.
fn put_converted(
    alloc: Global,
    out: &mut Bytes,
    sample: &Sample,
    mode: Mode,
    blocks: bool,
    f: &FuncTree,
) -> Result<(), NoMemory> {
    match converted(alloc, sample, mode, blocks, &f.op)? {
        Ok(op) => put_func(alloc, out, &FuncTree { op }),
        Err(at) => {
            put_unlegalised(out, &at)?;
            put_func(alloc, out, f)
        }
    }
}

fn put_all(
    alloc: Global,
    out: &mut Bytes,
    sample: &Sample,
    mode: Mode,
    blocks: bool,
    module: &ModuleTree,
) -> Result<(), NoMemory> {
    for func in module.funcs.as_slice() {
        put_converted(alloc, out, sample, mode, blocks, func)?;
    }
    Ok(())
}

fn read(alloc: Global, text: &str) -> Option<ModuleTree> {
    if text.len() > MAX_TEXT {
        return None;
    }
    read_tree(alloc, text.as_bytes(), true).ok()
}

fn put_conversions(
    alloc: Global,
    out: &mut Bytes,
    sample: &Sample,
    mode: Mode,
    blocks: bool,
    text: &str,
) -> Result<(), NoMemory> {
    match read(alloc, text) {
        Some(module) => put_all(alloc, out, sample, mode, blocks, &module),
        None => out.put(b"not read\n"),
    }
}

/// What the graph of a sample says of names, one a line.
fn put_graph(alloc: Global, out: &mut Bytes, sample: &Sample, text: &str) -> Result<(), NoMemory> {
    let graph = sample_graph(alloc, sample)?;
    for name in text.lines() {
        put_name(alloc, out, &graph, name.as_bytes())?;
    }
    Ok(())
}

/// What the type table says of the types of a module.
fn put_table(alloc: Global, out: &mut Bytes, bits: u32, text: &str) -> Result<(), NoMemory> {
    match read(alloc, text) {
        Some(module) => put_types(alloc, out, bits, &module),
        None => out.put(b"not read\n"),
    }
}

fn put_done(
    alloc: Global,
    out: &mut Bytes,
    sample: &Sample,
    way: Way,
    text: &str,
) -> Result<(), NoMemory> {
    match way {
        Way::Converts(mode, blocks) => put_conversions(alloc, out, sample, mode, blocks, text),
        Way::Graph => put_graph(alloc, out, sample, text),
    }
}

fn put_of_sample(
    alloc: Global,
    out: &mut Bytes,
    name: &str,
    word: &str,
    text: &str,
) -> Result<(), NoMemory> {
    match (sample_named(name.as_bytes()), way_named(word)) {
        (Some(sample), Some(way)) => put_done(alloc, out, sample, way, text),
        _ => out.put(b"no such case\n"),
    }
}

/// A case, with its first line.
pub fn put_case(alloc: Global, out: &mut Bytes, piece: &str) -> Result<(), NoMemory> {
    let (head, text) = piece.split_once('\n').unwrap_or((piece, ""));
    out.put(b"-- ")?;
    out.put(head.as_bytes())?;
    out.put(b"\n")?;
    let (words, _) = head.split_once(':').unwrap_or((head, ""));
    match words {
        "types 32" => put_table(alloc, out, 32, text),
        "types 64" => put_table(alloc, out, 64, text),
        _ => {
            let (name, word) = words.split_once(' ').unwrap_or((words, ""));
            put_of_sample(alloc, out, name, word, text)
        }
    }
}
