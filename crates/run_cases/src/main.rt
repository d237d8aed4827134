//! Prints what each operation of arith and llvm gives of a table of edge values, and how small programs end, by both meanings. What must
//! be printed was computed from docs/OPERATIONS.md with plain integers, and not by these crates.
#![tactic(auto)]

mod casts;
mod lines;
mod pairs;
mod programs;
mod regions;
mod room;
mod runs;

use std::alloc::Global;
use std::io;
use std::string::String;
use tree_model::NoMemory;

/// All rows.
fn rows(alloc: Global) -> Result<String, NoMemory> {
    let mut out = String::new(alloc);
    pairs::write_all(alloc, &mut out)?;
    casts::write_all(alloc, &mut out)?;
    programs::write_all(alloc, &mut out)?;
    regions::write_all(alloc, &mut out)?;
    room::write_all(alloc, &mut out)?;
    Ok(out)
}

fn main(rt: HostRuntime) -> io::Result<()> {
    match rows(rt.alloc()) {
        Ok(text) => print!(rt; "{text}"),
        Err(_) => println!(rt; "out of memory"),
    }
}
