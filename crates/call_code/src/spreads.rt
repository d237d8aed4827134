//! Arguments as the values that are handed over.

ghost use Rattle.std.specs.Prelude.{◌≡◌, ℕ, IfOk, [], ◌∷◌, ◌++◌};
ghost use Rattle.operation_model.specs.Calling as model;
ghost use Rattle.operation_model.specs.Values.{field_paths};
ghost use Rattle.value_code.specs.Models.{value_of, values_of};
ghost use Rattle.call_code.specs.Lists.{list_of, places, Puts, Spreads};

use sqlite_items::{Items, at};
use std::alloc::{AllocError, Global};
use value_code::{Value, ValueList, copy_value, part_at};

/// Puts the part at a path to a list. False where there is none.
fn put_part(alloc: Global, all: &mut ValueList, path: &[u64], v: &Value) -> Result<bool, AllocError>
    ensures { IfOk result (λ done. Puts done all.old all.new (path.now ∷ []) (value_of v.now)) }
{
    match part_at(path, v) {
        Some(part) => {
            all.push(copy_value(alloc, part)?)?;
            Ok(true)
        }
        None => Ok(false),
    }
}

/// Puts the parts at the places of a field to a list. False where one isn't there.
fn put_places(
    alloc: Global,
    all: &mut ValueList,
    field: u64,
    rank: u64,
    v: &Value,
) -> Result<bool, AllocError>
    ensures { IfOk result (λ done. Puts done all.old all.new (places field rank) (value_of v.now)) }
{
    for i in 0..rank {
        if !put_part(alloc, all, &[field, i], v)? {
            return Ok(false);
        }
    }
    Ok(true)
}

/// Puts the first three fields of a descriptor to a list. False where one isn't there.
fn put_head(alloc: Global, all: &mut ValueList, v: &Value) -> Result<bool, AllocError>
    ensures { IfOk result (λ done. Puts done all.old all.new ((0 ∷ []) ∷ (1 ∷ []) ∷ (2 ∷ []) ∷ []) (value_of v.now)) }
{
    if !put_part(alloc, all, &[0], v)? {
        return Ok(false);
    }
    if !put_part(alloc, all, &[1], v)? {
        return Ok(false);
    }
    put_part(alloc, all, &[2], v)
}

/// Puts the sizes and the strides of a descriptor to a list. False where one isn't there.
fn put_tail(alloc: Global, all: &mut ValueList, rank: u64, v: &Value) -> Result<bool, AllocError>
    ensures { IfOk result (λ done. Puts done all.old all.new (places 3 rank ++ places 4 rank) (value_of v.now)) }
{
    if !put_places(alloc, all, 3, rank, v)? {
        return Ok(false);
    }
    put_places(alloc, all, 4, rank, v)
}

/// Puts the fields of a descriptor to a list. False where one isn't there.
fn put_fields(alloc: Global, all: &mut ValueList, rank: u64, v: &Value) -> Result<bool, AllocError>
    ensures { IfOk result (λ done. Puts done all.old all.new (field_paths rank) (value_of v.now)) }
{
    if !put_head(alloc, all, v)? {
        return Ok(false);
    }
    put_tail(alloc, all, rank, v)
}

/// Puts an argument to a list: as it is, or by the fields of its descriptor. False where one isn't there.
fn put_argument(
    alloc: Global,
    all: &mut ValueList,
    shape: Option<u64>,
    v: &Value,
) -> Result<bool, AllocError>
    ensures { IfOk result (λ done. Spreads done all.old all.new shape (value_of v.now)) }
{
    match shape {
        Some(rank) => put_fields(alloc, all, rank, v),
        None => {
            all.push(copy_value(alloc, v)?)?;
            Ok(true)
        }
    }
}

/// The values that are handed over for arguments. None where that is outside of what has a meaning.
pub fn spread(
    alloc: Global,
    shapes: &[Option<u64>],
    xs: &[Value],
) -> Result<Option<ValueList>, AllocError>
    ensures { IfOk result (λ o. list_of o ≡ model.spread shapes.now (values_of xs.now)) }
{
    let mut all = Items::new(alloc);
    for i in 0..shapes.len() {
        let Some(x) = at(xs, i) else {
            return Ok(None);
        };
        if !put_argument(alloc, &mut all, shapes[i], x)? {
            return Ok(None);
        }
    }
    if shapes.len() < xs.len() {
        return Ok(None);
    }
    Ok(Some(all))
}
