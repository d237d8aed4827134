//! Calls of external functions.

ghost use Rattle.std.specs.Prelude.{◌≡◌, ℕ, List, IfOk, map, drop, length, min};
ghost use Rattle.std.specs.Option.{option_copied, option_map};
ghost use Rattle.operation_model.specs.Values as values;
ghost use Rattle.machine_model.specs.Machine as model;
ghost use Rattle.machine_model.specs.Worlds.{World};
ghost use Rattle.machine_model.specs.Worlds as worlds;
ghost use Rattle.value_code.specs.Models.{values_of};
ghost use Rattle.run_code.specs.Views.{bits_of, function_of, packing_of};
ghost use Rattle.doing_code.specs.Doings.{answered};
ghost use Rattle.machine_code.specs.Machines.{Advances, Runs, Tells, call_seen, calls_outside, calls_widths, replied};

use crate::kinds::{ExternalCall, Finish, Machine};
use crate::returns::resume;
use call_code::packed;
use memory_code::Memory;
use round_code::{answered, numbers, signed_numbers};
use run_code::{Function, Packing, Width};
use sqlite_items::Items;
use std::alloc::Global;
use step_code::Stop;
use tree_model::{Name, NoMemory};
use value_code::{Looked, Value, ValueList};

/// Numbers as integers.
#[tactic(auto, using(value_code::proofs::Shapes::shapes))]
fn integers(alloc: Global, ns: &[u64]) -> Result<ValueList, NoMemory>
    ensures { IfOk result (λ vs. values_of vs ≡ map values.Integer ns.now) }
{
    let mut all = Items::new(alloc);
    for n in ns {
        all.push(Value::Integer(*n))?;
    }
    Ok(all)
}

/// The answers behind the first ones.
fn answers_behind(answers: &[i64], count: usize) -> &[i64]
    ensures { result.now ≡ drop count answers.now }
{
    answers.split_at(count.min(answers.len())).1
}

/// The call of an external function of these widths, with arguments and answers.
fn call_of(
    alloc: Global,
    f: &Function,
    inputs: &[Width],
    outputs: &[Width],
    ns: &[u64],
    replies: &[u64],
) -> Result<ExternalCall, NoMemory>
    ensures { IfOk result (λ call. call_seen call ≡ record { name = f.now.name; args = worlds.all_signed (bits_of inputs.now) ns.now; answers = worlds.all_signed (bits_of outputs.now) replies.now }) }
{
    Ok(ExternalCall {
        name: Name::from_slice(alloc, f.name.as_slice())?,
        args: signed_numbers(alloc, inputs, ns)?,
        answers: signed_numbers(alloc, outputs, replies)?,
    })
}

/// Tells an external function of these widths its arguments. What it returns.
fn tell<'a>(
    alloc: Global,
    machine: &mut Machine<'a>,
    f: &Function,
    inputs: &[Width],
    outputs: &[Width],
    ns: &[u64],
) -> Result<ValueList, NoMemory>
    ensures { IfOk result (λ vs. Tells machine.old machine.new (values_of vs) (function_of f.now) (bits_of inputs.now) (bits_of outputs.now) ns.now) }
{
    let replies = answered(alloc, outputs, machine.answers)?;
    let call = call_of(alloc, f, inputs, outputs, ns, replies.as_slice())?;
    machine.trace.push(call)?;
    machine.answers = answers_behind(machine.answers, outputs.len());
    let values = integers(alloc, replies.as_slice())?;
    Ok(packed(alloc, f.face.packing, values)?)
}

/// An external function of these widths with integers, and the run behind the call.
fn reply<'a, M: Memory>(
    alloc: Global,
    machine: &mut Machine<'a>,
    memory: &M,
    f: &Function,
    widths: (&[Width], &[Width]),
    behind: (Packing, &'a [u32]),
    ns: &[u64],
) -> Result<Option<Finish>, NoMemory>
    ensures { IfOk result (λ o. (next : model.Next M.State) (p : model.Place) (cs : List model.Caller) (w : World M.State) → Runs M.Stands machine.old memory.now p cs w → Advances M.Stands o machine.new memory.now next
        (replied M.ask next (function_of f.now) (bits_of widths.entry.0.now) (bits_of widths.entry.1.now) ns.now (packing_of behind.entry.0) behind.entry.1.now p cs w)) }
{
    let (inputs, outputs) = widths;
    let values = tell(alloc, machine, f, inputs, outputs, ns)?;
    let (packing, ids) = behind;
    Ok(resume(alloc, machine, memory, packing, ids, values.as_slice())?)
}

/// A call of an external function of these widths.
fn call_widths<'a, M: Memory>(
    alloc: Global,
    machine: &mut Machine<'a>,
    memory: &M,
    f: &Function,
    widths: (&[Width], &[Width]),
    behind: (Packing, &'a [u32]),
    xs: &[Value],
) -> Result<Option<Finish>, NoMemory>
    ensures { IfOk result (λ o. (next : model.Next M.State) (p : model.Place) (cs : List model.Caller) (w : World M.State) → Runs M.Stands machine.old memory.now p cs w → Advances M.Stands o machine.new memory.now next
        (calls_widths M.ask next (function_of f.now) (bits_of widths.entry.0.now) (bits_of widths.entry.1.now) (values_of xs.now) (packing_of behind.entry.0) behind.entry.1.now p cs w)) }
{
    if xs.len() != widths.0.len() {
        return Ok(Some(Finish::Stopped(Stop::Outside)));
    }
    match numbers(alloc, xs)? {
        Looked::Gives(ns) => Ok(reply(alloc, machine, memory, f, widths, behind, ns.as_slice())?),
        Looked::Undefined => Ok(Some(Finish::Stopped(Stop::Undefined))),
        Looked::Outside => Ok(Some(Finish::Stopped(Stop::Outside))),
    }
}

/// A call of an external function.
pub fn call_external<'a, M: Memory>(
    alloc: Global,
    machine: &mut Machine<'a>,
    memory: &M,
    f: &Function,
    behind: (Packing, &'a [u32]),
    xs: &[Value],
) -> Result<Option<Finish>, NoMemory>
    ensures { IfOk result (λ o. (next : model.Next M.State) (p : model.Place) (cs : List model.Caller) (w : World M.State) → Runs M.Stands machine.old memory.now p cs w → Advances M.Stands o machine.new memory.now next
        (calls_outside M.ask next (function_of f.now) (values_of xs.now) (packing_of behind.entry.0) behind.entry.1.now p cs w)) }
{
    match &f.face.inputs {
        Some(inputs) => match &f.face.outputs {
            Some(outputs) => {
                let widths = (inputs.as_slice(), outputs.as_slice());
                Ok(call_widths(alloc, machine, memory, f, widths, behind, xs)?)
            }
            None => Ok(Some(Finish::Stopped(Stop::Outside))),
        },
        None => Ok(Some(Finish::Stopped(Stop::Outside))),
    }
}
