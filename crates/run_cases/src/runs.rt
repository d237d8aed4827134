//! Runs by both meanings, and how they end, in words.

ghost use Rattle.std.specs.Prelude.{◌≤◌};

use meaning_l::run_l;
use meaning_s::{End, Outcome, run_s};
use std::alloc::Global;
use std::fmt::{self, Display};
use tree_model::{ModuleTree, Name, NoMemory};

/// The fuel of each run.
const FUEL: u64 = 1000;

/// The cells of a run by the meaning of llvm operations.
const CELLS: u64 = 1000;

/// The end of a run, with its first result.
#[derive(Clone, Copy, PartialEq, Eq, Debug)]
pub enum Seen {
    Nothing,
    Number(i64),
    More,
    Undefined,
    Outside,
    NoRoom,
    /// The run itself wanted memory.
    NoMemory,
}

impl Display for Seen {
    fn fmt<W: fmt::Write>(&self, f: &mut fmt::Formatter<W>) -> fmt::Result {
        match self {
            Seen::Nothing => write!(f, "done"),
            Seen::Number(n) => write!(f, "{n}"),
            Seen::More => write!(f, "more"),
            Seen::Undefined => write!(f, "undefined"),
            Seen::Outside => write!(f, "outside"),
            Seen::NoRoom => write!(f, "no room"),
            Seen::NoMemory => write!(f, "out of memory"),
        }
    }
}

/// The ends by the structured meaning and by that of llvm operations.
#[derive(Clone, Copy, PartialEq, Eq, Debug)]
pub struct Both {
    structured: Seen,
    llvm: Seen,
}

impl Display for Both {
    fn fmt<W: fmt::Write>(&self, f: &mut fmt::Formatter<W>) -> fmt::Result {
        let structured = self.structured;
        let llvm = self.llvm;
        if structured == llvm {
            write!(f, "{structured}")
        } else {
            write!(f, "{structured} by buffers and {llvm} by cells")
        }
    }
}

fn told(run: Result<Outcome, NoMemory>) -> Seen {
    match run {
        Ok(outcome) => end_seen(&outcome.end),
        Err(_) => Seen::NoMemory,
    }
}

fn end_seen(end: &End) -> Seen {
    match end {
        End::Done(results) => match results.as_slice() {
            [first, ..] => Seen::Number(*first),
            [] => Seen::Nothing,
        },
        End::More => Seen::More,
        End::Undefined => Seen::Undefined,
        End::Outside => Seen::Outside,
        End::NoRoom => Seen::NoRoom,
    }
}

fn run_by_s(
    alloc: Global,
    tree: &ModuleTree,
    name: &[u8],
    args: &[i128],
    bits: u32,
) -> Result<Outcome, NoMemory>
    requires one { 1 ≤ bits }
    requires most { bits ≤ 64 }
{
    let name = Name::from_slice(alloc, name)?;
    run_s(alloc, tree, &name, args, &[], FUEL, bits)
}

fn run_by_l(
    alloc: Global,
    tree: &ModuleTree,
    name: &[u8],
    args: &[i128],
    cells: u64,
) -> Result<Outcome, NoMemory> {
    let name = Name::from_slice(alloc, name)?;
    run_l(alloc, tree, &name, args, &[], cells, FUEL)
}

/// A run of `f` by the structured meaning, where an `index` has so many bits.
pub fn by_s(alloc: Global, tree: &ModuleTree, args: &[i128], bits: u32) -> Seen
    requires one { 1 ≤ bits }
    requires most { bits ≤ 64 }
{
    told(run_by_s(alloc, tree, b"f", args, bits))
}

/// A run of `f` by the meaning of llvm operations, with so many cells.
pub fn by_l(alloc: Global, tree: &ModuleTree, args: &[i128], cells: u64) -> Seen {
    told(run_by_l(alloc, tree, b"f", args, cells))
}

/// Runs of a function of this name by both meanings.
pub fn ends_of(alloc: Global, tree: &ModuleTree, name: &[u8], args: &[i128]) -> Both {
    Both {
        structured: told(run_by_s(alloc, tree, name, args, 64)),
        llvm: told(run_by_l(alloc, tree, name, args, CELLS)),
    }
}

/// Runs of `f` by both meanings.
pub fn ends(alloc: Global, tree: &ModuleTree, args: &[i128]) -> Both {
    ends_of(alloc, tree, b"f", args)
}
