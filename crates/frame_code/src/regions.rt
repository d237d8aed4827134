//! The operations with regions, and the ends of regions.

ghost use Rattle.std.specs.Prelude.{◌≡◌, ℕ, IfOk, [], ◌∷◌};
ghost use Rattle.form_model.specs.Codes.{Env};
ghost use Rattle.form_model.specs.Codes as codes;
ghost use Rattle.operation_model.specs.Forms as forms;
ghost use Rattle.machine_model.specs.Machine as model;
ghost use Rattle.value_code.specs.Models.{value_of, values_of};
ghost use Rattle.run_code.specs.Views.{blocks_of, form_of, regions_of};
ghost use Rattle.table_code.specs.Agreement.{Agrees};
ghost use Rattle.round_code.specs.Counts.{start_of};
ghost use Rattle.frame_code.specs.Frames.{Moved, MovedIf, behind_of, frame_of, frames_of, moves};

use crate::frame::{Behind, Frame, Looping, Moving, Place};
use crate::rounds::{decide, enter_with, leave, turn, yield_values};
use round_code::{case_of, counts};
use run_code::{Block, Form, Region, Width};
use sqlite_items::at;
use std::alloc::{AllocError, Global};
use value_code::{Looked, Value, number, truth};

/// The region at a place, an empty one where there is none.
fn region_at(regions: &[Region], i: usize) -> &[Block]
    ensures { blocks_of result.now ≡ codes.region_at i (regions_of regions.now) }
{
    match at(regions, i) {
        Some(region) => region.blocks.as_slice(),
        None => &[],
    }
}

/// Into a region that is run once. An empty one gives no values at once.
fn enter_once<'a>(
    alloc: Global,
    place: &mut Place<'a>,
    region: &'a [Block],
    behind: Behind<'a>,
) -> Result<Moving, AllocError>
    ensures { IfOk result (λ m. (env : Env) → Agrees place.old.table env → Moved m place.new
        (model.enters_once (blocks_of region.now) (behind_of behind.entry) env (frames_of place.old) tt)) }
{
    if region.is_empty() {
        Ok(leave(alloc, place, behind, &[])?)
    } else {
        Ok(enter_with(alloc, place, region, Frame::Once(behind), &[])?)
    }
}

/// A choice of a region by a condition.
fn begin_if<'a>(
    alloc: Global,
    place: &mut Place<'a>,
    regions: &'a [Region],
    xs: &[Value],
    behind: Behind<'a>,
) -> Result<Moving, AllocError>
    ensures { IfOk result (λ m. (env : Env) → Agrees place.old.table env → Moved m place.new
        (moves forms.If (values_of xs.now) (regions_of regions.now) (behind_of behind.entry) env (frames_of place.old))) }
{
    match xs {
        [c] => match truth(c) {
            Looked::Gives(holds) => {
                let region = region_at(regions, if holds { 0 } else { 1 });
                enter_once(alloc, place, region, behind)
            }
            Looked::Undefined => Ok(Moving::Undefined),
            Looked::Outside => Ok(Moving::Outside),
        },
        _ => Ok(Moving::Outside),
    }
}

/// A counting loop.
fn begin_for<'a>(
    alloc: Global,
    place: &mut Place<'a>,
    w: Width,
    regions: &'a [Region],
    xs: &[Value],
    behind: Behind<'a>,
) -> Result<Moving, AllocError>
    ensures { IfOk result (λ m. (env : Env) → Agrees place.old.table env → Moved m place.new
        (moves (forms.For w.bits) (values_of xs.now) (regions_of regions.now) (behind_of behind.entry) env (frames_of place.old))) }
{
    match xs {
        [x, y, z, carried @ ..] => {
            let body = region_at(regions, 0);
            match counts(w, x, y, z) {
                Looked::Gives(start) => Ok(turn(
                    alloc,
                    place,
                    start.counting,
                    body,
                    start.first,
                    carried,
                    behind,
                )?),
                Looked::Undefined => Ok(Moving::Undefined),
                Looked::Outside => Ok(Moving::Outside),
            }
        }
        _ => Ok(Moving::Outside),
    }
}

/// A loop with a condition.
fn begin_while<'a>(
    alloc: Global,
    place: &mut Place<'a>,
    regions: &'a [Region],
    xs: &[Value],
    behind: Behind<'a>,
) -> Result<Moving, AllocError>
    ensures { IfOk result (λ m. (env : Env) → Agrees place.old.table env → Moved m place.new
        (moves forms.While (values_of xs.now) (regions_of regions.now) (behind_of behind.entry) env (frames_of place.old))) }
{
    let before = region_at(regions, 0);
    let after = region_at(regions, 1);
    let frame = Frame::Before(Looping { before, after }, behind);
    enter_with(alloc, place, before, frame, xs)
}

/// A choice of a region by a number.
fn begin_switch<'a>(
    alloc: Global,
    place: &mut Place<'a>,
    w: Width,
    cases: &[i64],
    regions: &'a [Region],
    xs: &[Value],
    behind: Behind<'a>,
) -> Result<Moving, AllocError>
    ensures { IfOk result (λ m. (env : Env) → Agrees place.old.table env → Moved m place.new
        (moves (forms.Switch w.bits cases.now) (values_of xs.now) (regions_of regions.now) (behind_of behind.entry) env (frames_of place.old))) }
{
    match xs {
        [x] => match number(x) {
            Looked::Gives(n) => {
                let region = region_at(regions, case_of(w, n, cases));
                enter_once(alloc, place, region, behind)
            }
            Looked::Undefined => Ok(Moving::Undefined),
            Looked::Outside => Ok(Moving::Outside),
        },
        _ => Ok(Moving::Outside),
    }
}

/// A region that is run where it stands.
fn begin_execute<'a>(
    alloc: Global,
    place: &mut Place<'a>,
    regions: &'a [Region],
    xs: &[Value],
    behind: Behind<'a>,
) -> Result<Moving, AllocError>
    ensures { IfOk result (λ m. (env : Env) → Agrees place.old.table env → Moved m place.new
        (moves forms.Execute (values_of xs.now) (regions_of regions.now) (behind_of behind.entry) env (frames_of place.old))) }
{
    match xs {
        [] => {
            let region = region_at(regions, 0);
            enter_with(alloc, place, region, Frame::Once(behind), &[])
        }
        [_, ..] => Ok(Moving::Outside),
    }
}

/// The end of a region by a condition.
fn end_by_condition<'a>(
    alloc: Global,
    place: &mut Place<'a>,
    xs: &[Value],
) -> Result<Moving, AllocError>
    ensures { IfOk result (λ m. (env : Env) → Agrees place.old.table env → (regions : codes.Regions) (behind : model.Behind) → Moved m place.new
        (moves forms.Condition (values_of xs.now) regions behind env (frames_of place.old))) }
{
    match xs {
        [c, rest @ ..] => decide(alloc, place, c, rest),
        [] => Ok(Moving::Outside),
    }
}

/// What an operation with regions or the end of a region comes to. None where the form is another one.
pub fn moved<'a>(
    alloc: Global,
    place: &mut Place<'a>,
    form: &Form,
    regions: &'a [Region],
    xs: &[Value],
    behind: Behind<'a>,
) -> Result<Option<Moving>, AllocError>
    ensures { IfOk result (λ m. (env : Env) → Agrees place.old.table env → MovedIf m place.old place.new (form_of form.now)
        (moves (form_of form.now) (values_of xs.now) (regions_of regions.now) (behind_of behind.entry) env (frames_of place.old))) }
{
    match form {
        Form::If => Ok(Some(begin_if(alloc, place, regions, xs, behind)?)),
        Form::For(w) => Ok(Some(begin_for(alloc, place, *w, regions, xs, behind)?)),
        Form::While => Ok(Some(begin_while(alloc, place, regions, xs, behind)?)),
        Form::Switch(w, cases) => {
            let cases = cases.as_slice();
            Ok(Some(begin_switch(alloc, place, *w, cases, regions, xs, behind)?))
        }
        Form::Execute => Ok(Some(begin_execute(alloc, place, regions, xs, behind)?)),
        Form::Yield => Ok(Some(yield_values(alloc, place, xs)?)),
        Form::Condition => Ok(Some(end_by_condition(alloc, place, xs)?)),
        Form::Computes(_)
        | Form::Branch
        | Form::BranchOn(_, _)
        | Form::Call(_, _, _)
        | Form::Return(_)
        | Form::Load(_)
        | Form::Store(_)
        | Form::Allocate
        | Form::AllocateAligned
        | Form::Free
        | Form::NewMemref(_)
        | Form::EndMemref
        | Form::LoadElement(_, _)
        | Form::StoreElement(_, _)
        | Form::Unknown => Ok(None),
    }
}
