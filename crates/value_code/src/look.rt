//! Looking at values.

ghost use Rattle.std.specs.Prelude.{◌≡◌};
ghost use Rattle.operation_model.specs.Values as model;
ghost use Rattle.value_code.specs.Models.{looked_of, place_looked_of, value_of};

use crate::value::{Place, Value};

/// What looking at a value gives.
#[derive(Clone, Copy, PartialEq, Eq, Debug)]
pub enum Looked<T> {
    Gives(T),
    Undefined,
    Outside,
}

/// The integer that is looked at.
#[tactic(auto, using(crate::proofs::Shapes::shapes))]
pub fn number(v: &Value) -> Looked<u64>
    ensures { looked_of result ≡ model.number (value_of v.now) }
{
    match v {
        Value::Integer(n) => Looked::Gives(*n),
        Value::Unset => Looked::Undefined,
        Value::Pointer(_, _) | Value::Aggregate(_) => Looked::Outside,
    }
}

/// The place of a pointer that is looked at.
#[tactic(auto, using(crate::proofs::Shapes::shapes))]
pub fn place_of(v: &Value) -> Looked<Place>
    ensures { place_looked_of result ≡ model.place_of (value_of v.now) }
{
    match v {
        Value::Pointer(buffer, offset) => Looked::Gives(Place {
            buffer: *buffer,
            offset: *offset,
        }),
        Value::Unset => Looked::Undefined,
        Value::Integer(_) | Value::Aggregate(_) => Looked::Outside,
    }
}
