//! Runs a loop of so many rounds with three additions: by the structured meaning where the second argument is 0, else its lowered form by
//! the meaning of llvm operations.
#![tactic(auto)]

use meaning_l::run_l;
use meaning_s::{End, Outcome, run_s};
use small_programs::{counted_l, counted_s};
use std::alloc::Global;
use std::{env, io};
use tree_model::{Name, NoMemory};

/// The fuel of each run.
const FUEL: u64 = 1 << 40;

fn run(alloc: Global, rounds: u32, lowered: bool) -> Result<Outcome, NoMemory> {
    let name = Name::from_slice(alloc, b"f")?;
    let args = [rounds as i128];
    if lowered {
        run_l(alloc, &counted_l(alloc)?, &name, &args, &[], 1 << 24, FUEL)
    } else {
        run_s(alloc, &counted_s(alloc)?, &name, &args, &[], FUEL, 64)
    }
}

/// The sum of a run's results, 0 where it has none.
fn sum_of(outcome: &Outcome) -> i64 {
    match &outcome.end {
        End::Done(results) => results
            .as_slice()
            .iter()
            .fold(0, |sum, n| n.wrapping_add(sum)),
        _ => 0,
    }
}

fn main(rt: HostRuntime) -> io::Result<()> {
    let mut words = env::args(&rt)?.skip(1);
    let rounds = words
        .next()
        .and_then(|word| word.parse().ok())
        .unwrap_or(10);
    let kind = words.next().and_then(|word| word.parse().ok()).unwrap_or(0);
    let lowered: bool = kind != 0u32;
    match run(rt.alloc(), rounds, lowered) {
        Ok(outcome) => println!(rt; "sum {}", sum_of(&outcome)),
        Err(_) => println!(rt; "out of memory"),
    }
}
