//! Questions to the memory, with the answers bound.

ghost use Rattle.std.specs.Prelude.{◌≡◌, ℕ, ◌^◌, min, length, IfOk, [], ◌∷◌, ◌++◌};
ghost use Rattle.operation_model.specs.Doings.{Load, Store, Allocate, Free};
ghost use Rattle.operation_model.specs.Values as values;
ghost use Rattle.form_model.specs.Codes.{Env};
ghost use Rattle.value_code.specs.Models.{place_of as spot_of, pointer_at, value_of, values_of};
ghost use Rattle.table_code.specs.Agreement.{Agrees};
ghost use Rattle.frame_code.specs.Frames.{behind_of, frames_of};
ghost use Rattle.step_code.specs.Turns.{Stepped, after, descriptor_at, made};

use crate::turns::{Stop, Turn, turned};
use doing_code::NewMemref;
use frame_code::{Behind, Place, go, go_one};
use memory_code::Memory;
use run_code::Width;
use sqlite_items::Items;
use std::alloc::{AllocError, Global};
use value_code::{Looked, Place as Spot, Value, ValueList};

/// A load: the integer is the result.
pub fn loads<'a, M: Memory>(
    place: &mut Place<'a>,
    memory: &M,
    behind: Behind<'a>,
    w: Width,
    at: Spot,
) -> Result<Turn<'a>, AllocError>
    ensures { IfOk result (λ t. (s : M.State) → M.Stands memory.now s → (env : Env) → Agrees place.old.table env → Stepped M.Stands t place.new memory.now
        (after s (M.ask (Load w.bits (spot_of at)) s) (behind_of behind.entry) env (frames_of place.old))) }
{
    match memory.load(w, at) {
        Looked::Gives(n) => Ok(turned(go_one(
            place,
            behind.results,
            Value::Integer(n),
            behind.rest,
            behind.blocks,
        )?)),
        Looked::Undefined => Ok(Turn::Stops(Stop::Undefined)),
        Looked::Outside => Ok(Turn::Stops(Stop::Outside)),
    }
}

/// A store: there is no result.
pub fn stores<'a, M: Memory>(
    alloc: Global,
    place: &mut Place<'a>,
    memory: &mut M,
    behind: Behind<'a>,
    w: Width,
    n: u64,
    at: Spot,
) -> Result<Turn<'a>, AllocError>
    ensures { IfOk result (λ t. (s : M.State) → M.Stands memory.old s → (env : Env) → Agrees place.old.table env → Stepped M.Stands t place.new memory.new
        (after s (M.ask (Store w.bits n (spot_of at)) s) (behind_of behind.entry) env (frames_of place.old))) }
{
    if memory.store(w, n, at)? {
        Ok(turned(go(
            alloc,
            place,
            behind.results,
            &[],
            behind.rest,
            behind.blocks,
        )?))
    } else {
        Ok(Turn::Stops(Stop::Undefined))
    }
}

/// The end of a buffer: there is no result.
pub fn frees<'a, M: Memory>(
    alloc: Global,
    place: &mut Place<'a>,
    memory: &mut M,
    behind: Behind<'a>,
    at: Spot,
) -> Result<Turn<'a>, AllocError>
    ensures { IfOk result (λ t. (s : M.State) → M.Stands memory.old s → (env : Env) → Agrees place.old.table env → Stepped M.Stands t place.new memory.new
        (after s (M.ask (Free (spot_of at)) s) (behind_of behind.entry) env (frames_of place.old))) }
{
    if memory.free(at) {
        Ok(turned(go(
            alloc,
            place,
            behind.results,
            &[],
            behind.rest,
            behind.blocks,
        )?))
    } else {
        Ok(Turn::Stops(Stop::Undefined))
    }
}

/// A new buffer: a pointer to it is the result.
pub fn allocates<'a, M: Memory>(
    place: &mut Place<'a>,
    memory: &mut M,
    behind: Behind<'a>,
    alignment: u64,
    n: u128,
) -> Result<Turn<'a>, AllocError>
    ensures { IfOk result (λ t. (size : ℕ) → n ≡ min size (2 ^ 65) → (s : M.State) → M.Stands memory.old s → (env : Env) → Agrees place.old.table env → Stepped M.Stands t place.new memory.new
        (after s (M.ask (Allocate alignment size) s) (behind_of behind.entry) env (frames_of place.old))) }
{
    match memory.allocate(alignment, n)? {
        Some(at) => Ok(turned(go_one(
            place,
            behind.results,
            Value::Pointer(at.buffer, at.offset),
            behind.rest,
            behind.blocks,
        )?)),
        None => Ok(Turn::Stops(Stop::NoRoom)),
    }
}

/// The first three fields of a descriptor.
#[tactic(auto, using(value_code::proofs::Shapes::shapes))]
fn head_at(alloc: Global, at: Spot) -> Result<ValueList, AllocError>
    ensures { IfOk result (λ vs. values_of vs ≡ pointer_at at ∷ pointer_at at ∷ values.Integer 0 ∷ []) }
{
    let mut fields = Items::new(alloc);
    fields.push(Value::Pointer(at.buffer, at.offset))?;
    fields.push(Value::Pointer(at.buffer, at.offset))?;
    fields.push(Value::Integer(0))?;
    Ok(fields)
}

/// These fields with two arrays behind them.
#[tactic(auto, using(value_code::proofs::Shapes::shapes))]
fn with_arrays(head: ValueList, sizes: ValueList, strides: ValueList) -> Result<Value, AllocError>
    ensures { IfOk result (λ v. value_of v ≡ values.together (values_of head ++ values.together (values_of sizes) ∷ values.together (values_of strides) ∷ [])) }
{
    let mut fields = head;
    fields.push(Value::Aggregate(sizes))?;
    fields.push(Value::Aggregate(strides))?;
    Ok(Value::Aggregate(fields))
}

/// The descriptor of a new memref.
#[tactic(auto, using(value_code::proofs::Shapes::shapes))]
fn descriptor(
    alloc: Global,
    at: Spot,
    sizes: ValueList,
    strides: ValueList,
) -> Result<Value, AllocError>
    ensures { IfOk result (λ v. value_of v ≡ descriptor_at (pointer_at at) (values_of sizes) (values_of strides)) }
{
    let head = head_at(alloc, at)?;
    if sizes.is_empty() {
        Ok(Value::Aggregate(head))
    } else {
        Ok(with_arrays(head, sizes, strides)?)
    }
}

/// A new memref: it is the result.
pub fn makes<'a, M: Memory>(
    alloc: Global,
    place: &mut Place<'a>,
    memory: &mut M,
    behind: Behind<'a>,
    new: NewMemref,
) -> Result<Turn<'a>, AllocError>
    ensures { IfOk result (λ t. (size : ℕ) → new.bytes ≡ min size (2 ^ 65) → (s : M.State) → M.Stands memory.old s → (env : Env) → Agrees place.old.table env → Stepped M.Stands t place.new memory.new
        (made s (M.ask (Allocate new.alignment size) s) (values_of new.sizes) (values_of new.strides) (behind_of behind.entry) env (frames_of place.old))) }
{
    match memory.allocate(new.alignment, new.bytes)? {
        Some(at) => {
            let memref = descriptor(alloc, at, new.sizes, new.strides)?;
            Ok(turned(go_one(place, behind.results, memref, behind.rest, behind.blocks)?))
        }
        None => Ok(Turn::Stops(Stop::NoRoom)),
    }
}
