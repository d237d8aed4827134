//! What a function returns, as one value or none.

ghost use Rattle.std.specs.Prelude.{◌≡◌, IfOk};
ghost use Rattle.operation_model.specs.Calling as model;
ghost use Rattle.operation_model.specs.Values as values;
ghost use Rattle.value_code.specs.Models.{value_of, values_of};
ghost use Rattle.run_code.specs.Views.{packing_of};
ghost use Rattle.call_code.specs.Lists.{list_of};

use run_code::Packing;
use sqlite_items::Items;
use std::alloc::{AllocError, Global};
use value_code::{Value, ValueList, copy_values};

/// The values that are returned.
#[tactic(auto, using(value_code::proofs::Shapes::shapes))]
pub fn packed(alloc: Global, p: Packing, xs: ValueList) -> Result<ValueList, AllocError>
    ensures { IfOk result (λ ys. values_of ys ≡ model.packed (packing_of p) (values_of xs)) }
{
    match p {
        Packing::Bare => Ok(xs),
        Packing::Together => {
            let mut one = Items::new(alloc);
            one.push(Value::Aggregate(xs))?;
            Ok(one)
        }
    }
}

/// The parts of a struct or array. None where it is another value.
#[tactic(auto, using(crate::proofs::CallLaws::insides))]
fn inside(alloc: Global, v: &Value) -> Result<Option<ValueList>, AllocError>
    ensures { IfOk result (λ o. list_of o ≡ values.inside (value_of v.now)) }
{
    match v {
        Value::Aggregate(parts) => Ok(Some(copy_values(alloc, parts.as_slice())?)),
        Value::Integer(_) | Value::Pointer(_, _) | Value::Unset => Ok(None),
    }
}

/// The results from the values that are returned. None where that is outside of what has a meaning.
pub fn unpacked(alloc: Global, p: Packing, xs: &[Value]) -> Result<Option<ValueList>, AllocError>
    ensures { IfOk result (λ o. list_of o ≡ model.unpacked (packing_of p) (values_of xs.now)) }
{
    match p {
        Packing::Bare => Ok(Some(copy_values(alloc, xs)?)),
        Packing::Together => match xs {
            [v] => inside(alloc, v),
            _ => Ok(None),
        },
    }
}
