//! Into regions, out of them, and on from round to round.

ghost use Rattle.std.specs.Prelude.{◌≡◌, ℕ, IfOk, OnOk, [], ◌∷◌};
ghost use Rattle.form_model.specs.Codes.{Env};
ghost use Rattle.form_model.specs.Codes as codes;
ghost use Rattle.operation_model.specs.Values as values;
ghost use Rattle.machine_model.specs.Machine as model;
ghost use Rattle.value_code.specs.Models.{value_of, values_of};
ghost use Rattle.run_code.specs.Views.{ops_of, blocks_of};
ghost use Rattle.table_code.specs.Agreement.{Agrees, Binds};
ghost use Rattle.round_code.specs.Counts.{counting_of};
ghost use Rattle.frame_code.specs.Frames.{Moved, behind_of, frame_of, goes_to, looping_of, frames_of, target_of, turns_into};

use crate::frame::{Behind, Frame, Looping, Moving, Place};
use crate::moves::go;
use round_code::{Counting, has_round, next_number};
use run_code::Block;
use std::alloc::{AllocError, Global};
use table_code::{Table, bind, put};
use value_code::{Looked, Value, truth};

/// Into a block of a region, with these arguments.
fn enter_block<'a>(
    alloc: Global,
    place: &mut Place<'a>,
    block: &'a Block,
    region: &'a [Block],
    xs: &[Value],
) -> Result<Moving, AllocError>
    ensures { IfOk result (λ m. (env : Env) → Agrees place.old.table env → Moved m place.new
        (goes_to (target_of block.now).args (values_of xs.now) env (target_of block.now).ops (blocks_of region.now) (frames_of place.old))) }
{
    go(
        alloc,
        place,
        block.args.as_slice(),
        xs,
        block.ops.as_slice(),
        region,
    )
}

/// Into the first block of a region, with these arguments.
pub fn enter<'a>(
    alloc: Global,
    place: &mut Place<'a>,
    region: &'a [Block],
    xs: &[Value],
) -> Result<Moving, AllocError>
    ensures { IfOk result (λ m. (env : Env) → Agrees place.old.table env → Moved m place.new
        (model.enters (blocks_of region.now) (values_of xs.now) env (frames_of place.old) tt)) }
{
    match region.first() {
        Some(first) => Ok(enter_block(alloc, place, first, region, xs)?),
        None => Ok(Moving::Outside),
    }
}

/// Puts a region in front of those under way.
fn push<'a>(place: &mut Place<'a>, frame: Frame<'a>) -> Result<(), AllocError>
    ensures frames { OnOk result (frames_of place.new ≡ frame_of frame.entry ∷ frames_of place.old) }
    ensures table { OnOk result (place.new.table ≡ place.old.table) }
{
    place.frames.push_front(frame)?;
    Ok(())
}

/// Into a region with these arguments, with what waits for it.
pub fn enter_with<'a>(
    alloc: Global,
    place: &mut Place<'a>,
    region: &'a [Block],
    frame: Frame<'a>,
    xs: &[Value],
) -> Result<Moving, AllocError>
    ensures { IfOk result (λ m. (env : Env) → Agrees place.old.table env → Moved m place.new
        (model.enters (blocks_of region.now) (values_of xs.now) env (frame_of frame.entry ∷ frames_of place.old) tt)) }
{
    push(place, frame)?;
    Ok(enter(alloc, place, region, xs)?)
}

/// Behind the operation that holds the region, with these results.
pub fn leave<'a>(
    alloc: Global,
    place: &mut Place<'a>,
    behind: Behind<'a>,
    xs: &[Value],
) -> Result<Moving, AllocError>
    ensures { IfOk result (λ m. (env : Env) → Agrees place.old.table env → Moved m place.new
        (model.leaves (behind_of behind.entry) (values_of xs.now) env (frames_of place.old) tt)) }
{
    go(alloc, place, behind.results, xs, behind.rest, behind.blocks)
}

/// Gives the number of a round and the values that the loop carries to the arguments of its body. False where they are not as many.
fn bind_round(
    alloc: Global,
    table: &mut Table,
    ids: &[u32],
    i: u64,
    xs: &[Value],
) -> Result<bool, AllocError>
    ensures { IfOk result (λ done. (env : Env) → Agrees table.old env → Binds done table.new (codes.bind ids.now (values.Integer i ∷ values_of xs.now) env)) }
{
    match ids {
        [first, rest @ ..] => {
            put(table, *first, Value::Integer(i))?;
            Ok(bind(alloc, table, rest, xs)?)
        }
        [] => Ok(false),
    }
}

/// Into the first block of a counting loop's body where it has a round, else behind the loop.
fn test<'a>(
    alloc: Global,
    place: &mut Place<'a>,
    c: Counting,
    body: &'a [Block],
    first: &'a Block,
    i: u64,
    xs: &[Value],
    behind: Behind<'a>,
) -> Result<Moving, AllocError>
    ensures { IfOk result (λ m. (env : Env) → Agrees place.old.table env → Moved m place.new
        (model.tested (model.has_round (counting_of c (blocks_of body.now)) i) (target_of first.now) (counting_of c (blocks_of body.now)) i (values_of xs.now) (behind_of behind.entry) env (frames_of place.old) tt)) }
{
    if has_round(c, i) {
        push(place, Frame::Body(c, body, i, behind))?;
        place.ops = first.ops.as_slice();
        place.blocks = body;
        Ok(Moving::Went)
    } else {
        Ok(leave(alloc, place, behind, xs)?)
    }
}

/// A counting loop at its test, with the first block of its body.
fn turn_into<'a>(
    alloc: Global,
    place: &mut Place<'a>,
    c: Counting,
    body: &'a [Block],
    first: &'a Block,
    i: u64,
    xs: &[Value],
    behind: Behind<'a>,
) -> Result<Moving, AllocError>
    ensures { IfOk result (λ m. (env : Env) → Agrees place.old.table env → Moved m place.new
        (turns_into (target_of first.now) (counting_of c (blocks_of body.now)) i (values_of xs.now) (behind_of behind.entry) env (frames_of place.old))) }
{
    if bind_round(alloc, &mut place.table, first.args.as_slice(), i, xs)? {
        test(alloc, place, c, body, first, i, xs, behind)
    } else {
        Ok(Moving::Outside)
    }
}

/// A counting loop at its test.
pub fn turn<'a>(
    alloc: Global,
    place: &mut Place<'a>,
    c: Counting,
    body: &'a [Block],
    i: u64,
    xs: &[Value],
    behind: Behind<'a>,
) -> Result<Moving, AllocError>
    ensures { IfOk result (λ m. (env : Env) → Agrees place.old.table env → Moved m place.new
        (model.turns (counting_of c (blocks_of body.now)) i (values_of xs.now) (behind_of behind.entry) env (frames_of place.old) tt)) }
{
    match body.first() {
        Some(first) => Ok(turn_into(alloc, place, c, body, first, i, xs, behind)?),
        None => Ok(Moving::Outside),
    }
}

/// The next round of a counting loop.
fn next_turn<'a>(
    alloc: Global,
    place: &mut Place<'a>,
    c: Counting,
    body: &'a [Block],
    i: u64,
    xs: &[Value],
    behind: Behind<'a>,
) -> Result<Moving, AllocError>
    ensures { IfOk result (λ m. (env : Env) → Agrees place.old.table env → Moved m place.new
        (model.yields (values_of xs.now) env (model.Body (counting_of c (blocks_of body.now)) i (behind_of behind.entry) ∷ frames_of place.old) tt)) }
{
    match next_number(c, i) {
        Looked::Gives(next) => Ok(turn(alloc, place, c, body, next, xs, behind)?),
        Looked::Undefined => Ok(Moving::Undefined),
        Looked::Outside => Ok(Moving::Outside),
    }
}

/// From the second region of a loop with a condition to its first one.
fn again<'a>(
    alloc: Global,
    place: &mut Place<'a>,
    l: Looping<'a>,
    xs: &[Value],
    behind: Behind<'a>,
) -> Result<Moving, AllocError>
    ensures { IfOk result (λ m. (env : Env) → Agrees place.old.table env → Moved m place.new
        (model.enters (blocks_of l.entry.before.now) (values_of xs.now) env (model.Before (looping_of l.entry) (behind_of behind.entry) ∷ frames_of place.old) tt)) }
{
    enter_with(alloc, place, l.before, Frame::Before(l, behind), xs)
}

/// A region under way that yields values.
pub fn yield_values<'a>(
    alloc: Global,
    place: &mut Place<'a>,
    xs: &[Value],
) -> Result<Moving, AllocError>
    ensures { IfOk result (λ m. (env : Env) → Agrees place.old.table env → Moved m place.new
        (model.yields (values_of xs.now) env (frames_of place.old) tt)) }
{
    match place.frames.pop_front() {
        Some(Frame::Once(behind)) => leave(alloc, place, behind, xs),
        Some(Frame::Body(c, body, i, behind)) => next_turn(alloc, place, c, body, i, xs, behind),
        Some(Frame::After(l, behind)) => again(alloc, place, l, xs, behind),
        Some(Frame::Before(_, _)) | None => Ok(Moving::Outside),
    }
}

/// Into the second region of a loop with a condition where it holds, else behind the loop.
fn decided<'a>(
    alloc: Global,
    place: &mut Place<'a>,
    holds: bool,
    l: Looping<'a>,
    xs: &[Value],
    behind: Behind<'a>,
) -> Result<Moving, AllocError>
    ensures { IfOk result (λ m. (env : Env) → Agrees place.old.table env → Moved m place.new
        (model.decided holds (looping_of l.entry) (values_of xs.now) (behind_of behind.entry) env (frames_of place.old) tt)) }
{
    if holds {
        enter_with(alloc, place, l.after, Frame::After(l, behind), xs)
    } else {
        leave(alloc, place, behind, xs)
    }
}

/// The condition of a loop that waits.
fn decide_on<'a>(
    alloc: Global,
    place: &mut Place<'a>,
    c: &Value,
    l: Looping<'a>,
    xs: &[Value],
    behind: Behind<'a>,
) -> Result<Moving, AllocError>
    ensures { IfOk result (λ m. (env : Env) → Agrees place.old.table env → Moved m place.new
        (model.decides (value_of c.now) (values_of xs.now) env (model.Before (looping_of l.entry) (behind_of behind.entry) ∷ frames_of place.old) tt)) }
{
    match truth(c) {
        Looked::Gives(holds) => decided(alloc, place, holds, l, xs, behind),
        Looked::Undefined => Ok(Moving::Undefined),
        Looked::Outside => Ok(Moving::Outside),
    }
}

/// The condition of a loop.
pub fn decide<'a>(
    alloc: Global,
    place: &mut Place<'a>,
    c: &Value,
    xs: &[Value],
) -> Result<Moving, AllocError>
    ensures { IfOk result (λ m. (env : Env) → Agrees place.old.table env → Moved m place.new
        (model.decides (value_of c.now) (values_of xs.now) env (frames_of place.old) tt)) }
{
    match place.frames.pop_front() {
        Some(Frame::Before(l, behind)) => decide_on(alloc, place, c, l, xs, behind),
        Some(Frame::Once(_)) | Some(Frame::Body(_, _, _, _)) | Some(Frame::After(_, _)) | None => {
            Ok(Moving::Outside)
        }
    }
}
