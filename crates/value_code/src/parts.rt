//! The parts of structs and arrays.

ghost use Rattle.std.specs.Prelude.{◌≡◌, List, [], ◌∷◌};
ghost use Rattle.std.specs.Option.{option_copied};
ghost use Rattle.operation_model.specs.Values as model;
ghost use Rattle.value_code.specs.Models.{part_of, value_of};

use crate::value::Value;

/// The part at a place of a struct or array.
#[tactic(auto, using(crate::proofs::Shapes::shapes))]
pub fn part(v: &Value, i: u64) -> Option<&Value>
    ensures { part_of (option_copied result) ≡ model.part_at (i ∷ []) (value_of v.now) }
{
    match v {
        Value::Aggregate(parts) => parts.get(i as usize),
        Value::Integer(_) | Value::Pointer(_, _) | Value::Unset => None,
    }
}

/// The part at a path of fields and places.
pub fn part_at<'a>(path: &[u64], v: &'a Value) -> Option<&'a Value>
    ensures { part_of (option_copied result) ≡ model.part_at path.now (value_of v.now) }
{
    let mut at = v;
    for i in path {
        match part(at, *i) {
            Some(inner) => at = inner,
            None => return None,
        }
    }
    Some(at)
}
