//! What a function has returned.

ghost use Rattle.std.specs.Prelude.{◌≡◌, ℕ, List, IfOk};
ghost use Rattle.operation_model.specs.Doings.{Doing};
ghost use Rattle.operation_model.specs.Values as values;
ghost use Rattle.form_model.specs.Codes.{Env};
ghost use Rattle.machine_model.specs.Machine as model;
ghost use Rattle.machine_model.specs.Worlds.{World};
ghost use Rattle.value_code.specs.Models.{values_of};
ghost use Rattle.run_code.specs.Views.{packing_of};
ghost use Rattle.table_code.specs.Agreement.{Agrees};
ghost use Rattle.doing_code.specs.Doings.{answered};
ghost use Rattle.frame_code.specs.Frames.{Moved};
ghost use Rattle.machine_code.specs.Machines.{Advances, Runs, Waits, comes_back, finish_if};

use crate::kinds::{Caller, Finish, Machine};
use call_code::unpacked;
use frame_code::{Moving, Place, go};
use memory_code::Memory;
use run_code::Packing;
use std::alloc::{AllocError, Global};
use step_code::Stop;
use value_code::{Value, ValueList};

/// Behind a call, with what was returned.
fn come_back<'a>(
    alloc: Global,
    place: &mut Place<'a>,
    packing: Packing,
    ids: &[u32],
    xs: &[Value],
) -> Result<Moving, AllocError>
    ensures { IfOk result (λ m. (env : Env) → Agrees place.old.table env → Moved m place.new (comes_back (packing_of packing) ids.now (values_of xs.now) place.old env)) }
{
    match unpacked(alloc, packing, xs)? {
        Some(ys) => {
            let ops = place.ops;
            let blocks = place.blocks;
            Ok(go(alloc, place, ids, ys.as_slice(), ops, blocks)?)
        }
        None => Ok(Moving::Outside),
    }
}

/// How a run ends where the place has not moved on.
pub fn finish_of(m: Moving) -> Option<Finish>
    ensures { result ≡ finish_if m }
{
    match m {
        Moving::Went => None,
        Moving::Undefined => Some(Finish::Stopped(Stop::Undefined)),
        Moving::Outside => Some(Finish::Stopped(Stop::Outside)),
    }
}

/// The run behind a call, with what was returned.
pub fn resume<'a, M: Memory>(
    alloc: Global,
    machine: &mut Machine<'a>,
    memory: &M,
    packing: Packing,
    ids: &[u32],
    xs: &[Value],
) -> Result<Option<Finish>, AllocError>
    ensures { IfOk result (λ o. (next : model.Next M.State) (p : model.Place) (cs : List model.Caller) (w : World M.State) → Runs M.Stands machine.old memory.now p cs w → Advances M.Stands o machine.new memory.now next
        (model.resumes M.ask next (answered (packing_of packing) (values_of xs.now)) ids.now p cs w)) }
{
    Ok(finish_of(come_back(alloc, &mut machine.place, packing, ids, xs)?))
}

/// The run behind the newest call, with what the function returns. Where there is none the run is over.
pub fn give_back<'a, M: Memory>(
    alloc: Global,
    machine: &mut Machine<'a>,
    memory: &M,
    xs: ValueList,
) -> Result<Option<Finish>, AllocError>
    ensures { IfOk result (λ o. (next : model.Next M.State) (cs : List model.Caller) (w : World M.State) → Waits M.Stands machine.old memory.now cs w → Advances M.Stands o machine.new memory.now next
        (model.gives_back M.ask next (values_of xs) cs w)) }
{
    match machine.callers.pop_front() {
        Some(
            Caller {
                packing,
                results,
                place,
            },
        ) => {
            machine.place = place;
            Ok(resume(alloc, machine, memory, packing, results, xs.as_slice())?)
        }
        None => Ok(Some(Finish::Returned(xs))),
    }
}
