//! Whole runs.

ghost use Rattle.std.specs.Prelude.{◌≡◌, ℕ, IfOk};
ghost use Rattle.meaning_model.specs.Meaning as model;
ghost use Rattle.run_code.specs.Views.{functions_of};
ghost use Rattle.decode_code.specs.Finding.{Stands};
ghost use Rattle.outcome_code.specs.Outcomes.{Entered, Shows, result_at};

use crate::entries::entry_of;
use crate::kinds::{End, Entry, Outcome};
use crate::results::end_finished;
use decode_code::{Finder, finder_of};
use machine_code::{Machine, run_on};
use memory_code::Memory;
use run_code::Function;
use sqlite_items::Items;
use std::alloc::Global;
use std::collections::VecDeque;
use tree_model::NoMemory;

/// A run from an entry.
fn run_from<'a, M: Memory>(
    alloc: Global,
    finder: &Finder<'a>,
    entry: Entry<'a>,
    answers: &'a [i64],
    memory: M,
    fuel: u64,
) -> Result<Outcome, NoMemory>
    requires { Stands finder.now.by_name finder.now.functions.now }
    ensures { IfOk result (λ o. (s : M.State) → M.Stands memory s → (e : model.Entry) → Entered entry.entry e → Shows o (result_at M.ask s (functions_of finder.now.functions.now) answers.now fuel e)) }
{
    let Entry {
        outputs,
        packing,
        place,
    } = entry;
    let mut memory = memory;
    let mut machine = Machine {
        place,
        callers: VecDeque::new(alloc),
        answers,
        trace: Items::new(alloc),
    };
    let finish = run_on(alloc, finder, &mut machine, &mut memory, fuel)?;
    let end = end_finished(alloc, outputs, packing, finish)?;
    Ok(Outcome {
        end,
        trace: machine.trace,
    })
}

/// A run of the function of a name, with arguments, the answers of external functions, a memory and fuel.
pub fn run_over<M: Memory>(
    alloc: Global,
    functions: &[Function],
    name: &[u8],
    args: &[i128],
    answers: &[i64],
    memory: M,
    fuel: u64,
) -> Result<Outcome, NoMemory>
    ensures { IfOk result (λ o. (s : M.State) → M.Stands memory s → Shows o (model.stepped M.ask s (functions_of functions.now) name.now args.now answers.now fuel)) }
{
    let finder = finder_of(alloc, functions)?;
    match entry_of(alloc, &finder, name, args)? {
        Some(entry) => Ok(run_from(alloc, &finder, entry, answers, memory, fuel)?),
        None => Ok(Outcome {
            end: End::Outside,
            trace: Items::new(alloc),
        }),
    }
}
