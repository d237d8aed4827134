//! What an operation does, by its form.

ghost use Rattle.std.specs.Prelude.{◌≡◌, ◌+◌, ◌≤◌, length, take, drop, IfOk};
ghost use Rattle.operation_model.specs.Forms as forms;
ghost use Rattle.operation_model.specs.Straight.{does};
ghost use Rattle.operation_model.specs.Straight as straight;
ghost use Rattle.value_code.specs.Models.{values_of};
ghost use Rattle.run_code.specs.Views.{form_of, packing_of, pure_of};
ghost use Rattle.doing_code.specs.Doings.{Does};

use crate::access::{
    allocate, allocate_aligned, end_memref, free, load, load_element, new_memref, store,
    store_element,
};
use crate::kinds::Doing;
use call_code::{packed, spread};
use compute_code::computed;
use run_code::{Callee, Form, Packing, Pure};
use std::alloc::{AllocError, Global};
use value_code::{Looked, Value, ValueList, copy_values, truth};

/// A result that is computed.
fn computes(
    alloc: Global,
    p: &Pure,
    labels: &[u32],
    xs: &[Value],
) -> Result<Doing<'static>, AllocError>
    ensures { IfOk result (λ d. Does d (does (forms.Computes (pure_of p.now)) labels.now (values_of xs.now))) }
{
    match computed(alloc, p, xs)? {
        Looked::Gives(v) => Ok(Doing::Gives(v)),
        Looked::Undefined => Ok(Doing::Undefined),
        Looked::Outside => Ok(Doing::Outside),
    }
}

/// A branch to the one successor.
fn branch(labels: &[u32], xs: ValueList) -> Doing<'static>
    ensures { Does result (does forms.Branch labels.now (values_of xs)) }
{
    match labels {
        [l] => Doing::Jumps(*l, xs),
        _ => Doing::Outside,
    }
}

/// A jump to the first or the second label, with so many first values or with those behind them.
fn jump_on(
    alloc: Global,
    first: u32,
    second: u32,
    counts: (u64, u64),
    xs: &[Value],
    holds: bool,
) -> Result<Doing<'static>, AllocError>
    ensures { IfOk result (λ d. Does d (straight.branch_on first second counts.0 counts.1 (values_of xs.now) holds)) }
{
    let all = counts.0 as u128 + counts.1 as u128;
    if xs.len() as u128 != all {
        return Ok(Doing::Outside);
    }
    let (front, back) = xs.split_at(counts.0 as usize);
    if holds {
        Ok(Doing::Jumps(first, copy_values(alloc, front)?))
    } else {
        Ok(Doing::Jumps(second, copy_values(alloc, back)?))
    }
}

/// A branch to the first or the second of two successors.
fn branch_on(
    alloc: Global,
    counts: (u64, u64),
    labels: &[u32],
    xs: &[Value],
) -> Result<Doing<'static>, AllocError>
    ensures { IfOk result (λ d. Does d (does (forms.BranchOn counts.0 counts.1) labels.now (values_of xs.now))) }
{
    match labels {
        [first, second] => match xs {
            [c, rest @ ..] => match truth(c) {
                Looked::Gives(holds) => jump_on(alloc, *first, *second, counts, rest, holds),
                Looked::Undefined => Ok(Doing::Undefined),
                Looked::Outside => Ok(Doing::Outside),
            },
            [] => Ok(Doing::Outside),
        },
        _ => Ok(Doing::Outside),
    }
}

/// A call of a function.
fn call<'a>(
    alloc: Global,
    f: &'a Callee,
    shapes: &[Option<u64>],
    p: Packing,
    labels: &[u32],
    xs: &[Value],
) -> Result<Doing<'a>, AllocError>
    ensures { IfOk result (λ d. Does d (does (forms.Call f.now.name shapes.now (packing_of p)) labels.now (values_of xs.now))) }
{
    match spread(alloc, shapes, xs)? {
        Some(ys) => Ok(Doing::Calls(f, ys, p)),
        None => Ok(Doing::Outside),
    }
}

/// A return of values.
fn returns(
    alloc: Global,
    p: Packing,
    labels: &[u32],
    xs: ValueList,
) -> Result<Doing<'static>, AllocError>
    ensures { IfOk result (λ d. Does d (does (forms.Return (packing_of p)) labels.now (values_of xs))) }
{
    Ok(Doing::Returns(packed(alloc, p, xs)?))
}

/// What an operation without regions does. One with regions is outside of this.
pub fn doing_of<'a>(
    alloc: Global,
    form: &'a Form,
    labels: &[u32],
    xs: ValueList,
) -> Result<Doing<'a>, AllocError>
    ensures { IfOk result (λ d. Does d (does (form_of form.now) labels.now (values_of xs))) }
{
    match form {
        Form::Computes(p) => computes(alloc, p, labels, xs.as_slice()),
        Form::Branch => Ok(branch(labels, xs)),
        Form::BranchOn(a, b) => branch_on(alloc, (*a, *b), labels, xs.as_slice()),
        Form::Call(f, shapes, p) => call(alloc, f, shapes.as_slice(), *p, labels, xs.as_slice()),
        Form::Return(p) => returns(alloc, *p, labels, xs),
        Form::Load(w) => Ok(load(*w, labels, xs.as_slice())),
        Form::Store(w) => Ok(store(*w, labels, xs.as_slice())),
        Form::Allocate => Ok(allocate(labels, xs.as_slice())),
        Form::AllocateAligned => Ok(allocate_aligned(labels, xs.as_slice())),
        Form::Free => Ok(free(labels, xs.as_slice())),
        Form::NewMemref(l) => new_memref(alloc, l, labels, xs.as_slice()),
        Form::EndMemref => Ok(end_memref(labels, xs.as_slice())),
        Form::LoadElement(bits, w) => Ok(load_element(*bits, *w, labels, xs.as_slice())),
        Form::StoreElement(bits, w) => Ok(store_element(*bits, *w, labels, xs.as_slice())),
        Form::If
        | Form::For(_)
        | Form::While
        | Form::Switch(_, _)
        | Form::Execute
        | Form::Yield
        | Form::Condition
        | Form::Unknown => Ok(Doing::Outside),
    }
}
