//! A run over buffers.

ghost use Rattle.std.specs.Prelude.{◌≡◌, ◌≤◌, IfOk};
ghost use Rattle.meaning_model.specs.Meaning.{means_s};
ghost use Rattle.outcome_code.specs.declared.kinds.End.TheVariants as ends;
ghost use Rattle.outcome_code.specs.Outcomes.{Shows};

use decode_code::decode;
use meaning_model::{law_always_room, law_forms};
use memory_code::no_buffers;
use outcome_code::{Outcome, run_over};
use run_code::Width;
use std::alloc::Global;
use tree_model::{ModuleTree, Name, NoMemory};

/// What a run of the function of this name comes to by the structured meaning, where an `index` has so many bits: with these arguments, the
/// answers of external functions in order (0 where they are used up), and so much fuel, of which each operation takes one unit.
pub fn run_s(
    alloc: Global,
    module: &ModuleTree,
    name: &Name,
    args: &[i128],
    answers: &[i64],
    fuel: u64,
    bits: u32,
) -> Result<Outcome, NoMemory>
    requires one { 1 ≤ bits }
    requires most { bits ≤ 64 }
    ensures meaning { IfOk result (λ o. Shows o (means_s «module».now name.now args.now answers.now fuel bits)) }
    ensures room { IfOk result (λ o. o.end ≡ ends.NoRoom → ⊥) }
{
    law_forms();
    law_always_room();
    let functions = decode(alloc, Width { bits }, module)?;
    let memory = no_buffers(alloc);
    Ok(run_over(
        alloc,
        functions.as_slice(),
        name.as_slice(),
        args,
        answers,
        memory,
        fuel,
    )?)
}
