//! What samples of patterns make of functions of standard input, how deep their names are, and what types become. What must be
//! printed was written from docs/LOWERING.md, and not by these crates.
//!
//! A case begins by a line `-- SAMPLE WAY: WORDS`, and ends at the next such line; what stands before the first one is a
//! comment. The way is `partial`, `full` or `blocks` (partial, with the arguments of blocks) of a module, or `graph` of names,
//! one a line. The cases `types 32` and `types 64` are of the types of a module's arguments, where an index has so many bits.
#![tactic(auto)]

mod cases;
mod passes;
mod rows;
mod samples;
mod tables;

use cases::put_case;
use std::alloc::Global;
use std::io;
use std::io::Write;
use tree_model::{Bytes, NoMemory};

fn all_cases(alloc: Global, input: &str) -> Result<Bytes, NoMemory> {
    let mut out = Bytes::new(alloc);
    for piece in input.split("\n-- ").skip(1) {
        put_case(alloc, &mut out, piece)?;
    }
    Ok(out)
}

fn main(rt: HostRuntime) -> io::Result<()> {
    let input = io::read_to_string(rt.alloc(), rt.stdin())?;
    match all_cases(rt.alloc(), input.as_str()) {
        Ok(text) => io::writer(&rt).write_all(text.as_slice()),
        Err(_) => println!(rt; "out of memory"),
    }
}
