//! Arguments from the values that are handed over.

ghost use Rattle.std.specs.Prelude.{◌≡◌, ℕ, ◌≤◌, ◌+◌, ◌*◌, length, IfOk};
ghost use Rattle.operation_model.specs.Values as values;
ghost use Rattle.operation_model.specs.Calling as model;
ghost use Rattle.value_code.specs.Models.{value_of, values_of};
ghost use Rattle.call_code.specs.Lists.{list_of, Takes};

use sqlite_items::{Items, at};
use std::alloc::{AllocError, Global};
use value_code::{Value, ValueList, copy_value, copy_values};

/// Values as one struct or array.
#[tactic(auto, using(value_code::proofs::Shapes::shapes))]
fn together(alloc: Global, vs: &[Value]) -> Result<Value, AllocError>
    ensures { IfOk result (λ v. value_of v ≡ values.together (values_of vs.now)) }
{
    Ok(Value::Aggregate(copy_values(alloc, vs)?))
}

/// The descriptor of these fields, where it has dimensions.
fn with_arrays(alloc: Global, rank: usize, fields: &[Value]) -> Result<Value, AllocError>
    requires some { 1 ≤ rank }
    requires all { length fields.now ≡ 3 + 2 * rank }
    ensures { IfOk result (λ v. value_of v ≡ model.from_fields rank (values_of fields.now)) }
{
    let (head, tail) = fields.split_at(3);
    let (sizes, strides) = tail.split_at(rank);
    let mut parts = copy_values(alloc, head)?;
    parts.push(together(alloc, sizes)?)?;
    parts.push(together(alloc, strides)?)?;
    Ok(Value::Aggregate(parts))
}

/// The descriptor of these fields.
fn from_fields(alloc: Global, rank: usize, fields: &[Value]) -> Result<Value, AllocError>
    requires { length fields.now ≡ 3 + 2 * rank }
    ensures { IfOk result (λ v. value_of v ≡ model.from_fields rank (values_of fields.now)) }
{
    if rank == 0 {
        together(alloc, fields)
    } else {
        with_arrays(alloc, rank, fields)
    }
}

/// Puts the argument of the first values to a list, and counts these values. None where there are too few.
fn take_argument(
    alloc: Global,
    all: &mut ValueList,
    shape: Option<u64>,
    vs: &[Value],
) -> Result<Option<usize>, AllocError>
    ensures { IfOk result (λ taken. Takes taken all.old all.new shape vs.now) }
{
    match shape {
        Some(rank) => take_fields(alloc, all, rank, vs),
        None => match at(vs, 0) {
            Some(v) => {
                all.push(copy_value(alloc, v)?)?;
                Ok(Some(1))
            }
            None => Ok(None),
        },
    }
}

/// Puts the descriptor of the first values to a list, and counts these values. None where there are too few.
fn take_fields(
    alloc: Global,
    all: &mut ValueList,
    rank: u64,
    vs: &[Value],
) -> Result<Option<usize>, AllocError>
    ensures { IfOk result (λ taken. Takes taken all.old all.new (Some rank) vs.now) }
{
    let count = 3 + 2 * rank as u128;
    if (vs.len() as u128) < count {
        return Ok(None);
    }
    let (fields, _) = vs.split_at(count as usize);
    all.push(from_fields(alloc, rank as usize, fields)?)?;
    Ok(Some(count as usize))
}

/// The arguments from the values that are handed over. None where that is outside of what has a meaning.
pub fn gathered(
    alloc: Global,
    shapes: &[Option<u64>],
    xs: &[Value],
) -> Result<Option<ValueList>, AllocError>
    ensures { IfOk result (λ o. list_of o ≡ model.gathered shapes.now (values_of xs.now)) }
{
    let mut all = Items::new(alloc);
    let mut rest = xs;
    for i in 0..shapes.len() {
        match take_argument(alloc, &mut all, shapes[i], rest)? {
            Some(taken) => rest = rest.split_at(taken).1,
            None => return Ok(None),
        }
    }
    if rest.is_empty() {
        Ok(Some(all))
    } else {
        Ok(None)
    }
}
