//! Values that move: by a choice, and as a size of a memref.

ghost use Rattle.std.specs.Prelude.{◌≡◌, ℕ, ◌≤◌, ◌<◌, List, [], ◌∷◌};
ghost use Rattle.operation_model.specs.Pures as model;
ghost use Rattle.value_code.specs.Models.{size_of, value_of, values_behind};

use crate::look::{Looked, number};
use crate::parts::part_at;
use crate::pures::truth;
use crate::value::Value;
use number_code::unsigned;

/// The second or the third value, by the first.
pub fn selected<'a>(c: &Value, x: &'a Value, y: &'a Value) -> Looked<&'a Value>
    ensures { values_behind result ≡ model.gives model.Selects (value_of c.now ∷ value_of x.now ∷ value_of y.now ∷ []) }
{
    match truth(c) {
        Looked::Gives(first) => Looked::Gives(if first { x } else { y }),
        Looked::Undefined => Looked::Undefined,
        Looked::Outside => Looked::Outside,
    }
}

/// The size of a memref at an index.
pub fn taken_size<'a>(bits: u32, rank: u64, m: &'a Value, x: &Value) -> Looked<&'a Value>
    requires { bits ≤ 64 }
    ensures { values_behind result ≡ model.gives (model.TakesSize bits rank) (value_of m.now ∷ value_of x.now ∷ []) }
{
    match number(x) {
        Looked::Gives(n) => size_at(m, rank, unsigned(bits, n)),
        Looked::Undefined => Looked::Undefined,
        Looked::Outside => Looked::Outside,
    }
}

/// The size at a dimension, undefined where there is none.
fn size_at(m: &Value, rank: u64, i: u64) -> Looked<&Value>
    ensures { values_behind result ≡ size_of rank i (value_of m.now) }
{
    if i < rank {
        match part_at(&[3, i], m) {
            Some(size) => Looked::Gives(size),
            None => Looked::Outside,
        }
    } else {
        Looked::Undefined
    }
}
