//! The first rule that each module of standard input breaks, one line a module.
//!
//! A module is the text behind a line `-- NAME`, up to the next such line; what stands before the first one is a comment. Behind those of
//! standard input come two modules of a function with 4,096 blocks.
#![tactic(auto)]

mod ladder;

use ir_verifier::verify;
use ladder::{Ladder, text_of};
use std::alloc::Global;
use std::io;
use tree_model::ModuleTree;
use tree_reader::read_tree;

/// The most bytes that a module has.
const MAX_TEXT: usize = 16777216;

fn write_verdict(
    rt: &impl Print,
    alloc: Global,
    name: &str,
    module: &ModuleTree,
) -> io::Result<()> {
    match verify(alloc, module)? {
        Some(broken) => println!(rt;
            "{name}: function {}, operation {}: {:?}",
            broken.function, broken.operation, broken.rule
        ),
        None => println!(rt; "{name}: verified"),
    }
}

/// The most blocks that a function has.
const MAX_BLOCKS: u32 = 4096;

fn write_case(rt: &impl Print, alloc: Global, name: &str, text: &str) -> io::Result<()> {
    if text.len() > MAX_TEXT {
        return println!(rt; "{name}: too long");
    }
    match read_tree(alloc, text.as_bytes(), true) {
        Ok(module) => write_verdict(rt, alloc, name, &module),
        Err(_) => println!(rt; "{name}: not read"),
    }
}

/// A function of many blocks, in which the block of a place uses the value of the last one (none where it is 0).
fn write_ladder(rt: &impl Print, alloc: Global, name: &str, reaches_on: u32) -> io::Result<()> {
    let ladder = Ladder {
        blocks: MAX_BLOCKS,
        reaches_on,
    };
    let text = text_of(alloc, ladder)?;
    write_case(rt, alloc, name, &text)
}

fn main(rt: HostRuntime) -> io::Result<()> {
    let input = io::read_to_string(rt.alloc(), rt.stdin())?;
    for piece in input.as_str().split("\n-- ").skip(1) {
        let (name, text) = piece.split_once('\n').unwrap_or((piece, ""));
        write_case(&rt, rt.alloc(), name, text)?;
    }
    write_ladder(&rt, rt.alloc(), "4,096 blocks", 0)?;
    write_ladder(
        &rt,
        rt.alloc(),
        "4,096 blocks, the last value in the third",
        2,
    )
}
