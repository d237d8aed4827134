//! Prints the lines on failed functions: first those on units that `units.rt` lists, given out of order, then those on modules
//! of standard input behind pipelines. What must be printed was written from docs/LOWERING.md, and not by these crates.
//!
//! A module is the text behind a line `-- PIPELINE`, up to the next such line; what stands before the first one is a comment.
#![tactic(auto)]

mod modules;
mod units;

use modules::put_lowered;
use std::alloc::Global;
use std::io;
use std::io::Write;
use tree_model::{Bytes, NoMemory};
use units::put_units;

fn all_lines(alloc: Global, input: &str) -> Result<Bytes, NoMemory> {
    let mut out = Bytes::new(alloc);
    put_units(alloc, &mut out)?;
    for piece in input.split("\n-- ").skip(1) {
        put_lowered(alloc, &mut out, piece)?;
    }
    Ok(out)
}

fn main(rt: HostRuntime) -> io::Result<()> {
    let input = io::read_to_string(rt.alloc(), rt.stdin())?;
    match all_lines(rt.alloc(), input.as_str()) {
        Ok(text) => io::writer(&rt).write_all(text.as_slice()),
        Err(_) => println!(rt; "out of memory"),
    }
}
