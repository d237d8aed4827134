//! What pipelines make of the modules of standard input, printed, with the lines on what failed. What must be printed was
//! written from docs/LOWERING.md, and not by these crates.
//!
//! A module is the text behind a line `-- PIPELINE`, up to the next such line; what stands before the first one is a comment.
#![tactic(auto)]

mod modules;

use modules::put_case;
use std::alloc::Global;
use std::io;
use std::io::Write;
use tree_model::{Bytes, NoMemory};

fn all_cases(alloc: Global, input: &str) -> Result<Bytes, NoMemory> {
    let mut out = Bytes::new(alloc);
    for piece in input.split("\n-- ").skip(1) {
        put_case(alloc, &mut out, piece)?;
    }
    Ok(out)
}

fn main(rt: HostRuntime) -> io::Result<()> {
    let input = io::read_to_string(rt.alloc(), rt.stdin())?;
    match all_cases(rt.alloc(), input.as_str()) {
        Ok(text) => io::writer(&rt).write_all(text.as_slice()),
        Err(_) => println!(rt; "out of memory"),
    }
}
