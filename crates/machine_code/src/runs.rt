//! Runs, step by step.

ghost use Rattle.std.specs.Prelude.{◌≡◌, ℕ, List, IfOk};
ghost use Rattle.machine_model.specs.Machine as model;
ghost use Rattle.machine_model.specs.Worlds.{World};
ghost use Rattle.run_code.specs.Views.{functions_of};
ghost use Rattle.decode_code.specs.Finding.{Stands};
ghost use Rattle.machine_code.specs.Machines.{Advances, Over, Runs};

use crate::calls::call;
use crate::kinds::{Finish, Machine};
use crate::returns::give_back;
use decode_code::Finder;
use memory_code::Memory;
use std::alloc::Global;
use step_code::{Stop, Turn, step};
use tree_model::NoMemory;

/// One step of a run. Its end, where it has ended.
fn advance<'a, M: Memory>(
    alloc: Global,
    finder: &Finder<'a>,
    machine: &mut Machine<'a>,
    memory: &mut M,
) -> Result<Option<Finish>, NoMemory>
    requires { Stands finder.now.by_name finder.now.functions.now }
    ensures { IfOk result (λ o. (next : model.Next M.State) (p : model.Place) (cs : List model.Caller) (w : World M.State) → Runs M.Stands machine.old memory.old p cs w → Advances M.Stands o machine.new memory.new next
        (model.follows M.ask (functions_of finder.now.functions.now) next (model.step M.ask p w.memory) cs w)) }
{
    match step(alloc, &mut machine.place, memory)? {
        Turn::Went => Ok(None),
        Turn::Calls(callee, xs, packing, ids) => {
            let name = callee.name.as_slice();
            let behind = (packing, ids);
            Ok(call(alloc, finder, machine, memory, name, behind, xs.as_slice())?)
        }
        Turn::Returns(xs) => Ok(give_back(alloc, machine, memory, xs)?),
        Turn::Stops(stop) => Ok(Some(Finish::Stopped(stop))),
    }
}

/// A run with so much fuel.
pub fn run_on<'a, M: Memory>(
    alloc: Global,
    finder: &Finder<'a>,
    machine: &mut Machine<'a>,
    memory: &mut M,
    fuel: u64,
) -> Result<Finish, NoMemory>
    requires { Stands finder.now.by_name finder.now.functions.now }
    ensures { IfOk result (λ f. (p : model.Place) (cs : List model.Caller) (w : World M.State) → Runs M.Stands machine.old memory.old p cs w → Over f machine.new
        (model.exec M.ask (functions_of finder.now.functions.now) fuel p cs w)) }
{
    for unit in 0..fuel {
        if let Some(finish) = advance(alloc, finder, machine, memory)? {
            return Ok(finish);
        }
    }
    Ok(Finish::Stopped(Stop::More))
}
