//! Calls of functions.

ghost use Rattle.std.specs.Prelude.{◌≡◌, ℕ, List, ◌∷◌, IfOk, OnOk};
ghost use Rattle.machine_model.specs.Machine as model;
ghost use Rattle.machine_model.specs.Worlds.{World};
ghost use Rattle.value_code.specs.Models.{values_of};
ghost use Rattle.run_code.specs.Views.{function_of, functions_of, packing_of};
ghost use Rattle.decode_code.specs.Finding.{Stands};
ghost use Rattle.form_model.specs.Codes.{Env};
ghost use Rattle.table_code.specs.Agreement.{Agrees};
ghost use Rattle.frame_code.specs.Frames.{place_of};
ghost use Rattle.machine_code.specs.Machines.{Advances, Runs, caller_at, calls_inside, calls_one, calls_named};

use crate::begins::begin;
use crate::external::call_external;
use crate::kinds::{Caller, Finish, Machine};
use decode_code::Finder;
use frame_code::Place;
use memory_code::Memory;
use run_code::{Function, Packing};
use std::alloc::Global;
use step_code::Stop;
use tree_model::NoMemory;
use value_code::Value;

/// From a place in a function to a place in the function that it calls.
fn descend<'a, M: Memory>(
    machine: &mut Machine<'a>,
    memory: &M,
    behind: (Packing, &'a [u32]),
    place: Place<'a>,
) -> Result<(), NoMemory>
    ensures { OnOk result ((env : Env) → Agrees place.entry.table env → (p : model.Place) (cs : List model.Caller) (w : World M.State) → Runs M.Stands machine.old memory.now p cs w
        → Runs M.Stands machine.new memory.now (place_of place.entry env) (caller_at (packing_of behind.entry.0) behind.entry.1.now p ∷ cs) w) }
{
    let (packing, results) = behind;
    let waiting = std::mem::replace(&mut machine.place, place);
    machine.callers.push_front(Caller {
        packing,
        results,
        place: waiting,
    })?;
    Ok(())
}

/// A call of a function with blocks.
fn call_inside<'a, M: Memory>(
    alloc: Global,
    machine: &mut Machine<'a>,
    memory: &M,
    f: &'a Function,
    behind: (Packing, &'a [u32]),
    xs: &[Value],
) -> Result<Option<Finish>, NoMemory>
    ensures { IfOk result (λ o. (next : model.Next M.State) (p : model.Place) (cs : List model.Caller) (w : World M.State) → Runs M.Stands machine.old memory.now p cs w → Advances M.Stands o machine.new memory.now next
        (calls_inside next (function_of f.now) (values_of xs.now) (packing_of behind.entry.0) behind.entry.1.now p cs w)) }
{
    match begin(alloc, f, xs)? {
        Some(place) => {
            descend(machine, memory, behind, place)?;
            Ok(None)
        }
        None => Ok(Some(Finish::Stopped(Stop::Outside))),
    }
}

/// A call of a function.
fn call_one<'a, M: Memory>(
    alloc: Global,
    machine: &mut Machine<'a>,
    memory: &M,
    f: &'a Function,
    behind: (Packing, &'a [u32]),
    xs: &[Value],
) -> Result<Option<Finish>, NoMemory>
    ensures { IfOk result (λ o. (next : model.Next M.State) (p : model.Place) (cs : List model.Caller) (w : World M.State) → Runs M.Stands machine.old memory.now p cs w → Advances M.Stands o machine.new memory.now next
        (calls_one M.ask next (function_of f.now) (values_of xs.now) (packing_of behind.entry.0) behind.entry.1.now p cs w)) }
{
    if f.blocks.is_empty() {
        Ok(call_external(alloc, machine, memory, f, behind, xs)?)
    } else {
        Ok(call_inside(alloc, machine, memory, f, behind, xs)?)
    }
}

/// A call of the function of a name.
pub fn call<'a, M: Memory>(
    alloc: Global,
    finder: &Finder<'a>,
    machine: &mut Machine<'a>,
    memory: &M,
    name: &[u8],
    behind: (Packing, &'a [u32]),
    xs: &[Value],
) -> Result<Option<Finish>, NoMemory>
    requires { Stands finder.now.by_name finder.now.functions.now }
    ensures { IfOk result (λ o. (next : model.Next M.State) (p : model.Place) (cs : List model.Caller) (w : World M.State) → Runs M.Stands machine.old memory.now p cs w → Advances M.Stands o machine.new memory.now next
        (calls_named M.ask (functions_of finder.now.functions.now) next name.now (values_of xs.now) (packing_of behind.entry.0) behind.entry.1.now p cs w)) }
{
    match finder.find(name) {
        Some(f) => Ok(call_one(alloc, machine, memory, f, behind, xs)?),
        None => Ok(Some(Finish::Stopped(Stop::Outside))),
    }
}
