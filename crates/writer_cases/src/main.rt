//! Prints what functions are written as. What must be printed was written from the definitions, and not by these crates.
#![tactic(auto)]

mod cases;
mod shapes;
mod texts;

use cases::CASES;
use new_numbers::NewNumbers;
use shapes::{Case, choices, function};
use std::alloc::Global;
use std::io;
use std::io::Write;
use texts::{put_op, put_pairs};
use tree_model::{Bytes, NoMemory, OpTree};
use unit_slots::Choices;
use unit_writer::{Notes, function_written};

fn put_written(
    alloc: Global,
    out: &mut Bytes,
    function: &OpTree,
    choices: &Choices,
) -> Result<(), NoMemory> {
    let mut notes = Notes {
        numbers: NewNumbers::of(alloc, function),
        pairs: Vec::new(alloc),
    };
    let written = function_written(alloc, function, choices, &mut notes)?;
    put_op(out, &written)?;
    put_pairs(out, &notes.pairs)
}

fn put_case(alloc: Global, out: &mut Bytes, case: &Case) -> Result<(), NoMemory> {
    out.put(case.about)?;
    out.put(b":\n")?;
    let function = function(alloc, case)?;
    let choices = choices(alloc, case)?;
    put_written(alloc, out, &function, &choices)
}

fn all_cases(alloc: Global) -> Result<Bytes, NoMemory> {
    let mut out = Bytes::new(alloc);
    for case in CASES {
        put_case(alloc, &mut out, case)?;
    }
    Ok(out)
}

fn main(rt: HostRuntime) -> io::Result<()> {
    match all_cases(rt.alloc()) {
        Ok(text) => io::writer(&rt).write_all(text.as_slice()),
        Err(_) => println!(rt; "out of memory"),
    }
}
