//! One step from a place.

ghost use Rattle.std.specs.Prelude.{◌≡◌, ℕ, ◌∷◌, [], IfOk, MatchOption};
ghost use Rattle.operation_model.specs.Doings as doings;
ghost use Rattle.form_model.specs.Codes.{Env};
ghost use Rattle.machine_model.specs.Machine as model;
ghost use Rattle.value_code.specs.Models.{integer_of, looked_of, values_of};
ghost use Rattle.run_code.specs.Views.{form_of, regions_of};
ghost use Rattle.run_code.specs.declared.function.Operation.{out-Operation};
ghost use Rattle.table_code.specs.Agreement.{Agrees};
ghost use Rattle.frame_code.specs.Frames.{behind_of, frames_of, place_of};
ghost use Rattle.step_code.specs.Turns.{Paired, Stepped};

use crate::pairs::{branch_to, pair_gives};
use crate::perform::{jump_bare, perform};
use crate::turns::{Stop, Turn, turned};
use doing_code::doing_of;
use frame_code::{Behind, Place, go_one, moved};
use memory_code::Memory;
use run_code::Operation;
use std::alloc::{AllocError, Global};
use table_code::operands;
use value_code::{Looked, Value, ValueList};

/// An operation and those behind it.
#[derive(Clone, Copy)]
struct Ahead<'a> {
    op: &'a Operation,
    rest: &'a [Operation],
}

/// The first operation and those behind it.
fn next_of(ops: &[Operation]) -> Option<Ahead<'_>>
    ensures { MatchOption result (ops.now ≡ []) (λ a. ops.now ≡ a.op.now ∷ a.rest.now) }
{
    match ops {
        [op, rest @ ..] => Some(Ahead { op, rest }),
        [] => None,
    }
}

/// What an operation comes to with its operands at hand.
fn act<'a, M: Memory>(
    alloc: Global,
    place: &mut Place<'a>,
    memory: &mut M,
    op: &'a Operation,
    xs: ValueList,
    behind: Behind<'a>,
) -> Result<Turn<'a>, AllocError>
    ensures { IfOk result (λ t. (s : M.State) → M.Stands memory.old s → (env : Env) → Agrees place.old.table env → Stepped M.Stands t place.new memory.new
        (model.acts M.ask (form_of (out-Operation op.now).form) behind.entry.results.now (values_of xs) (out-Operation op.now).successors (regions_of (out-Operation op.now).regions) (behind_of behind.entry) env (frames_of place.old) s)) }
{
    let regions = op.regions.as_slice();
    match moved(alloc, place, &op.form, regions, xs.as_slice(), behind)? {
        Some(m) => Ok(turned(m)),
        None => {
            let doing = doing_of(alloc, &op.form, op.successors.as_slice(), xs)?;
            Ok(perform(alloc, place, memory, behind, doing)?)
        }
    }
}

/// What an operation of two integers comes to, by what it gives.
fn step_pair<'a, M: Memory>(
    place: &mut Place<'a>,
    memory: &M,
    ahead: Ahead<'a>,
    l: Looked<u64>,
) -> Result<Turn<'a>, AllocError>
    ensures { IfOk result (λ t. (s : M.State) → M.Stands memory.now s → (env : Env) → Agrees place.old.table env → place.old.ops.now ≡ ahead.entry.op.now ∷ ahead.entry.rest.now → Paired (doings.on (integer_of l) doings.Ends) ahead.entry.op.now env → Stepped M.Stands t place.new memory.now
        (model.step M.ask (place_of place.old env) s)) }
{
    let results = ahead.op.results.as_slice();
    let blocks = place.blocks;
    match l {
        Looked::Gives(n) => Ok(turned(go_one(
            place,
            results,
            Value::Integer(n),
            ahead.rest,
            blocks,
        )?)),
        Looked::Undefined => Ok(Turn::Stops(Stop::Undefined)),
        Looked::Outside => Ok(Turn::Stops(Stop::Outside)),
    }
}

/// What a branch comes to that hands over no values, by the label.
fn step_branch<'a, M: Memory>(
    alloc: Global,
    place: &mut Place<'a>,
    memory: &M,
    ahead: Ahead<'a>,
    l: Looked<u32>,
) -> Result<Turn<'a>, AllocError>
    ensures { IfOk result (λ t. (s : M.State) → M.Stands memory.now s → (env : Env) → Agrees place.old.table env → place.old.ops.now ≡ ahead.entry.op.now ∷ ahead.entry.rest.now → Paired (doings.on (looked_of l) (λ n. doings.Jumps n [])) ahead.entry.op.now env → Stepped M.Stands t place.new memory.now
        (model.step M.ask (place_of place.old env) s)) }
{
    let results = ahead.op.results.as_slice();
    let blocks = place.blocks;
    match l {
        Looked::Gives(label) => Ok(turned(jump_bare(alloc, place, label, blocks)?)),
        Looked::Undefined => Ok(Turn::Stops(Stop::Undefined)),
        Looked::Outside => Ok(Turn::Stops(Stop::Outside)),
    }
}

/// What an operation comes to, with a list of its operands.
fn step_on<'a, M: Memory>(
    alloc: Global,
    place: &mut Place<'a>,
    memory: &mut M,
    ahead: Ahead<'a>,
) -> Result<Turn<'a>, AllocError>
    ensures { IfOk result (λ t. (s : M.State) → M.Stands memory.old s → (env : Env) → Agrees place.old.table env → place.old.ops.now ≡ ahead.entry.op.now ∷ ahead.entry.rest.now → Stepped M.Stands t place.new memory.new
        (model.step M.ask (place_of place.old env) s)) }
{
    let op = ahead.op;
    let behind = Behind {
        results: op.results.as_slice(),
        rest: ahead.rest,
        blocks: place.blocks,
    };
    match operands(alloc, &place.table, op.operands.as_slice())? {
        Some(xs) => Ok(act(alloc, place, memory, op, xs, behind)?),
        None => Ok(Turn::Stops(Stop::Outside)),
    }
}

/// What an operation comes to that isn't one of two integers.
fn step_other<'a, M: Memory>(
    alloc: Global,
    place: &mut Place<'a>,
    memory: &mut M,
    ahead: Ahead<'a>,
) -> Result<Turn<'a>, AllocError>
    ensures { IfOk result (λ t. (s : M.State) → M.Stands memory.old s → (env : Env) → Agrees place.old.table env → place.old.ops.now ≡ ahead.entry.op.now ∷ ahead.entry.rest.now → Stepped M.Stands t place.new memory.new
        (model.step M.ask (place_of place.old env) s)) }
{
    match branch_to(&place.table, ahead.op) {
        Some(l) => Ok(step_branch(alloc, place, memory, ahead, l)?),
        None => Ok(step_on(alloc, place, memory, ahead)?),
    }
}

/// One step from a place.
pub fn step<'a, M: Memory>(
    alloc: Global,
    place: &mut Place<'a>,
    memory: &mut M,
) -> Result<Turn<'a>, AllocError>
    ensures { IfOk result (λ t. (s : M.State) → M.Stands memory.old s → (env : Env) → Agrees place.old.table env → Stepped M.Stands t place.new memory.new
        (model.step M.ask (place_of place.old env) s)) }
{
    match next_of(place.ops) {
        Some(ahead) => match pair_gives(&place.table, ahead.op) {
            Some(l) => Ok(step_pair(place, memory, ahead, l)?),
            None => Ok(step_other(alloc, place, memory, ahead)?),
        },
        None => Ok(Turn::Stops(Stop::Outside)),
    }
}
