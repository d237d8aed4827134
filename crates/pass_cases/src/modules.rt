//! Modules behind pipelines.

use generic_printer::print_tree;
use pipeline_text::{Pipeline, read_pipeline};
use std::alloc::Global;
use tree_model::{Bytes, ModuleTree, NoMemory};
use tree_reader::read_tree;
use unit_passes::lower;

/// The most bytes that a module has.
const MAX_TEXT: usize = 16777216;

fn put_behind(
    alloc: Global,
    out: &mut Bytes,
    pipeline: &Pipeline,
    module: ModuleTree,
) -> Result<(), NoMemory> {
    let lowered = lower(alloc, pipeline, module)?;
    let text = print_tree(alloc, &lowered.module_behind)?;
    out.put(text.as_slice())?;
    out.put(lowered.lines.as_slice())
}

fn put_module(
    alloc: Global,
    out: &mut Bytes,
    pipeline: &Pipeline,
    text: &[u8],
) -> Result<(), NoMemory> {
    if text.len() > MAX_TEXT {
        return out.put(b"too long\n");
    }
    match read_tree(alloc, text, true) {
        Ok(module) => put_behind(alloc, out, pipeline, module),
        Err(_) => out.put(b"not read\n"),
    }
}

/// The pipeline of a case, and its module behind it.
pub fn put_case(alloc: Global, out: &mut Bytes, piece: &str) -> Result<(), NoMemory> {
    let (words, text) = piece.split_once('\n').unwrap_or((piece, ""));
    out.put(b"-- ")?;
    out.put(words.as_bytes())?;
    out.put(b"\n")?;
    match read_pipeline(alloc, words.as_bytes()) {
        Ok(pipeline) => put_module(alloc, out, &pipeline, text.as_bytes()),
        Err(_) => out.put(b"no pipeline\n"),
    }
}
