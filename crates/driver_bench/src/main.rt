//! Converts a function of many operations, each of which becomes another one with a cast in front and a cast behind.
//!
//! Standard input has the number of operations, a blank, and the mode, `partial` or `full`; where it is `build`, the function is
//! built and not converted.
#![tactic(auto)]

mod function;

use function::many;
use pipeline_text::PassName;
use ready_passes::ReadyPass;
use std::alloc::Global;
use std::io;
use tree_model::{NoMemory, OpTree};
use unit_conversion::convert;
use unit_views::Mode;

/// How many operations the first block of a function has.
fn operations_in(f: &OpTree) -> usize {
    let Some(region) = f.regions.as_slice().first() else {
        return 0;
    };
    let Some(block) = region.blocks.as_slice().first() else {
        return 0;
    };
    block.ops.len()
}

/// How many operations there are behind the conversion, none where it is refused.
fn converted(alloc: Global, count: u32, mode: Mode) -> Result<Option<usize>, NoMemory> {
    let f = many(alloc, count)?;
    let ready = ReadyPass::new(alloc, PassName::ConvertArithToLlvm)?;
    let pass = ready.tables(64);
    match convert(alloc, &pass, mode, false, &f)? {
        Ok(g) => Ok(Some(operations_in(&g))),
        Err(_) => Ok(None),
    }
}

fn run(alloc: Global, count: u32, word: &str) -> Result<Option<usize>, NoMemory> {
    match word {
        "partial" => converted(alloc, count, Mode::Partial),
        "full" => converted(alloc, count, Mode::Full),
        _ => {
            let f = many(alloc, count)?;
            Ok(Some(operations_in(&f)))
        }
    }
}

fn main(rt: HostRuntime) -> io::Result<()> {
    let input = io::read_to_string(rt.alloc(), rt.stdin())?;
    let (count, word) = input
        .as_str()
        .trim()
        .split_once(' ')
        .unwrap_or(("0", "build"));
    let count = count.parse().unwrap_or(0);
    match run(rt.alloc(), count, word) {
        Ok(Some(number)) => println!(rt; "{number} operations"),
        Ok(None) => println!(rt; "refused"),
        Err(_) => println!(rt; "out of memory"),
    }
}
