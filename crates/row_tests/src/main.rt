//! Prints what each row of each set writes of an operation. What must be printed was written from the tables of docs/LOWERING.md,
//! and not by these crates.
#![tactic(auto)]

mod arith;
mod cuts;
mod memory;
mod rows;
mod shapes;
mod texts;

use arith_rows::ArithRows;
use cf_rows::CfRows;
use cuts::{SCF, put_cuts};
use expand_rows::ExpandRows;
use func_rows::{CastRows, FuncRows};
use memref_rows::MemrefRows;
use rows::{put_cases, put_frames};
use scf_rows::ScfRows;
use std::alloc::Global;
use std::io;
use std::io::Write;
use tree_model::{Bytes, NoMemory};

fn put_arith(alloc: Global, out: &mut Bytes) -> Result<(), NoMemory> {
    put_cases(
        alloc,
        out,
        b"arith_expand",
        &ExpandRows::new(alloc)?,
        arith::EXPAND,
    )?;
    put_cases(
        alloc,
        out,
        b"arith_lowering",
        &ArithRows::new(alloc)?,
        arith::ARITH,
    )?;
    put_cases(
        alloc,
        out,
        b"cf_lowering",
        &CfRows::new(alloc)?,
        arith::BRANCHES,
    )
}

fn put_memory(alloc: Global, out: &mut Bytes) -> Result<(), NoMemory> {
    put_cases(
        alloc,
        out,
        b"memref_lowering",
        &MemrefRows::new(alloc)?,
        memory::MEMREF,
    )?;
    let set = FuncRows::new(alloc)?;
    put_frames(alloc, out, b"func_lowering", &set, memory::FUNCTIONS)?;
    put_cases(alloc, out, b"func_lowering", &set, memory::FUNC)?;
    put_cases(alloc, out, b"casts", &CastRows::new(alloc)?, memory::CASTS)
}

/// All rows.
fn all_rows(alloc: Global) -> Result<Bytes, NoMemory> {
    let mut out = Bytes::new(alloc);
    put_cuts(alloc, &mut out, b"scf_lowering", &ScfRows::new(alloc)?, SCF)?;
    put_arith(alloc, &mut out)?;
    put_memory(alloc, &mut out)?;
    Ok(out)
}

fn main(rt: HostRuntime) -> io::Result<()> {
    match all_rows(rt.alloc()) {
        Ok(text) => io::writer(&rt).write_all(text.as_slice()),
        Err(_) => println!(rt; "out of memory"),
    }
}
