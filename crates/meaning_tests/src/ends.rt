//! Runs, and how they end.

use meaning_l::run_l;
use meaning_s::{End, Outcome, run_s};
use std::alloc::Global;
use tree_model::{ModuleTree, Name, NoMemory};

/// The fuel of most runs.
const FUEL: u64 = 10_000_000;

/// The end of a run, with its first result.
#[derive(Clone, Copy, PartialEq, Eq, Debug)]
pub enum Ended {
    Nothing,
    One(i64),
    More,
    Undefined,
    Outside,
    NoRoom,
}

pub fn end_seen(outcome: &Outcome) -> Ended {
    match &outcome.end {
        End::Done(results) => match results.as_slice() {
            [first, ..] => Ended::One(*first),
            [] => Ended::Nothing,
        },
        End::More => Ended::More,
        End::Undefined => Ended::Undefined,
        End::Outside => Ended::Outside,
        End::NoRoom => Ended::NoRoom,
    }
}

/// A run of `f` by the structured meaning with so much fuel.
pub fn fueled_s(
    alloc: Global,
    tree: &ModuleTree,
    args: &[i128],
    fuel: u64,
) -> Result<Outcome, NoMemory> {
    let name = Name::from_slice(alloc, b"f")?;
    run_s(alloc, tree, &name, args, &[], fuel, 64)
}

/// How a run of `f` by the structured meaning ends.
pub fn ends_s(alloc: Global, tree: &ModuleTree, args: &[i128]) -> Result<Ended, NoMemory> {
    Ok(end_seen(&fueled_s(alloc, tree, args, FUEL)?))
}

/// How a run of `f` by the meaning of llvm operations ends, with a thousand cells and so much fuel.
pub fn ends_l(
    alloc: Global,
    tree: &ModuleTree,
    args: &[i128],
    fuel: u64,
) -> Result<Ended, NoMemory> {
    let name = Name::from_slice(alloc, b"f")?;
    Ok(end_seen(&run_l(alloc, tree, &name, args, &[], 1000, fuel)?))
}
