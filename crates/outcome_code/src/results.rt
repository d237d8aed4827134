//! The end of a run.

ghost use Rattle.std.specs.Prelude.{◌≡◌, IfOk};
ghost use Rattle.meaning_model.specs.Meaning as model;
ghost use Rattle.value_code.specs.Models.{values_of};
ghost use Rattle.run_code.specs.Views.{bits_of, packing_of};
ghost use Rattle.step_code.specs.Turns.{stop_of};
ghost use Rattle.machine_code.specs.Machines.{finish_of};
ghost use Rattle.outcome_code.specs.Outcomes.{end_of, finished_with, numbers_end, results_end};

use crate::kinds::End;
use call_code::unpacked;
use machine_code::Finish;
use round_code::{numbers, signed_numbers};
use run_code::{Packing, Width};
use std::alloc::{AllocError, Global};
use step_code::Stop;
use value_code::{Looked, Value};

/// The end of a run that has stopped.
fn end_stopped(stop: Stop) -> End
    ensures { end_of result ≡ model.Stops (stop_of stop) }
{
    match stop {
        Stop::More => End::More,
        Stop::Undefined => End::Undefined,
        Stop::Outside => End::Outside,
        Stop::NoRoom => End::NoRoom,
    }
}

/// The end of a function with these results.
fn end_with(alloc: Global, outputs: &[Width], xs: &[Value]) -> Result<End, AllocError>
    ensures { IfOk result (λ e. end_of e ≡ numbers_end (bits_of outputs.now) (values_of xs.now)) }
{
    match numbers(alloc, xs)? {
        Looked::Gives(ns) => Ok(End::Done(signed_numbers(alloc, outputs, ns.as_slice())?)),
        Looked::Undefined => Ok(End::Undefined),
        Looked::Outside => Ok(End::Outside),
    }
}

/// The end of a function that has returned these values.
fn end_returned(
    alloc: Global,
    outputs: &[Width],
    packing: Packing,
    vs: &[Value],
) -> Result<End, AllocError>
    ensures { IfOk result (λ e. end_of e ≡ results_end (bits_of outputs.now) (packing_of packing) (values_of vs.now)) }
{
    match unpacked(alloc, packing, vs)? {
        Some(xs) => Ok(end_with(alloc, outputs, xs.as_slice())?),
        None => Ok(End::Outside),
    }
}

/// The end of a run of a function.
pub fn end_finished(
    alloc: Global,
    outputs: &[Width],
    packing: Packing,
    finish: Finish,
) -> Result<End, AllocError>
    ensures { IfOk result (λ e. end_of e ≡ finished_with (bits_of outputs.now) (packing_of packing) (finish_of finish)) }
{
    match finish {
        Finish::Returned(vs) => Ok(end_returned(alloc, outputs, packing, vs.as_slice())?),
        Finish::Stopped(stop) => Ok(end_stopped(stop)),
    }
}
