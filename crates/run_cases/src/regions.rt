//! How programs with regions, calls and branches end.

use crate::runs::{Both, ends, ends_of};
use small_programs::{
    Ty, counted, executed, handed_over, if_alone, if_else, one_function, plain, switched,
    unset_branch, unset_moved, unset_told,
};
use std::alloc::Global;
use std::string::String;
use tree_model::{ModuleTree, NoMemory};

/// Counting loops of an `i8`: from, to, by.
const LOOPS: [(i8, i8, i8); 9] = [
    (0, 3, 1),
    (-2, 3, 2),
    (3, 3, 1),
    (5, -5, 1),
    (0, 3, 0),
    (3, 3, 0),
    (0, 3, -1),
    (0, 127, 126),
    (0, 127, 64),
];

/// A run of `f` of one number for each of these.
fn write_runs(
    alloc: Global,
    out: &mut String,
    title: &str,
    tree: &ModuleTree,
    numbers: &[i64],
) -> Result<(), NoMemory> {
    write!(out, "{title}:")?;
    for n in numbers {
        let end = ends(alloc, tree, &[*n as i128]);
        write!(out, " {n} -> {end};")?;
    }
    writeln!(out)
}

fn write_loops(alloc: Global, out: &mut String) -> Result<(), NoMemory> {
    let tree = counted(alloc, Ty::Int(8))?;
    for (from, to, by) in LOOPS {
        let end = ends(alloc, &tree, &[from as i128, to as i128, by as i128]);
        writeln!(out, "scf.for from {from} to {to} by {by}: {end}")?;
    }
    Ok(())
}

fn write_choices(alloc: Global, out: &mut String) -> Result<(), NoMemory> {
    let bits = [-1, 0];
    write_runs(alloc, out, "scf.if", &if_else(alloc)?, &bits)?;
    write_runs(
        alloc,
        out,
        "scf.if without results",
        &if_alone(alloc)?,
        &bits,
    )
}

fn write_regions(alloc: Global, out: &mut String) -> Result<(), NoMemory> {
    let cases = [3, -1, 0, 4];
    write_runs(alloc, out, "scf.index_switch", &switched(alloc)?, &cases)?;
    write_runs(
        alloc,
        out,
        "scf.execute_region",
        &executed(alloc)?,
        &[-1, 0],
    )
}

fn write_end(out: &mut String, title: &str, end: Both) -> Result<(), NoMemory> {
    writeln!(out, "{title}: {end}")
}

fn write_calls(alloc: Global, out: &mut String) -> Result<(), NoMemory> {
    let handed = handed_over(alloc)?;
    write_runs(alloc, out, "a memref through a call", &handed, &[2, 0])
}

fn write_unset(alloc: Global, out: &mut String) -> Result<(), NoMemory> {
    let end = ends(alloc, &unset_told(alloc)?, &[]);
    write_end(
        out,
        "a declared function called with what was never set",
        end,
    )?;
    let end = ends(alloc, &unset_branch(alloc)?, &[]);
    write_end(out, "a branch by what was never set", end)?;
    let end = ends(alloc, &unset_moved(alloc)?, &[]);
    write_end(out, "a branch with what was never set", end)
}

/// Entries that are none.
fn write_entries(alloc: Global, out: &mut String) -> Result<(), NoMemory> {
    let tree = one_function(alloc, &[], &[], &[], &[plain(b"func.return", &[], &[])])?;
    let end = ends_of(alloc, &tree, b"g", &[]);
    write_end(out, "an entry of an unknown name", end)?;
    let end = ends_of(alloc, &unset_told(alloc)?, b"tick", &[0]);
    write_end(out, "an entry without a body", end)
}

/// All rows of this kind.
pub fn write_all(alloc: Global, out: &mut String) -> Result<(), NoMemory> {
    write_loops(alloc, out)?;
    write_choices(alloc, out)?;
    write_regions(alloc, out)?;
    write_calls(alloc, out)?;
    write_unset(alloc, out)?;
    write_entries(alloc, out)
}
