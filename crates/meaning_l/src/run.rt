//! A run over cells.

ghost use Rattle.std.specs.Prelude.{IfOk};
ghost use Rattle.meaning_model.specs.Meaning.{means_l};
ghost use Rattle.outcome_code.specs.Outcomes.{Shows};

use decode_code::decode;
use memory_code::free_cells;
use outcome_code::{Outcome, run_over};
use run_code::full_width;
use std::alloc::Global;
use tree_model::{ModuleTree, Name, NoMemory};

/// What a run of the function of this name comes to by the meaning of llvm operations: with these arguments, the answers of external
/// functions in order (0 where they are used up), so many cells of memory, and so much fuel, of which each operation takes one unit.
pub fn run_l(
    alloc: Global,
    module: &ModuleTree,
    name: &Name,
    args: &[i128],
    answers: &[i64],
    memory: u64,
    fuel: u64,
) -> Result<Outcome, NoMemory>
    ensures { IfOk result (λ o. Shows o (means_l «module».now name.now args.now answers.now memory fuel)) }
{
    let functions = decode(alloc, full_width(), module)?;
    let cells = free_cells(alloc, memory);
    Ok(run_over(
        alloc,
        functions.as_slice(),
        name.as_slice(),
        args,
        answers,
        cells,
        fuel,
    )?)
}
