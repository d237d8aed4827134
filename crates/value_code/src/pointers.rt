//! Pointers that move.

ghost use Rattle.std.specs.Prelude.{◌≡◌, ℕ, ◌≤◌, ◌^◌, ◌*ℤ◌, pos, List, [], ◌∷◌, unsigned_abs};
ghost use Rattle.number_model.specs.Numbers as numbers;
ghost use Rattle.operation_model.specs.Pures as model;
ghost use Rattle.value_code.specs.Models.{place_of as stands_for, pointer_at, pointer_of, value_of};

use crate::look::{Looked, number, place_of};
use crate::value::{Place, Value};
use number_code::{signed, wrapped};

/// A place moved on by so many bytes, modulo 2 to the 64.
pub fn moved_on(bytes: i128, p: Place) -> Place
    requires { unsigned_abs bytes ≤ 2 ^ 100 }
    ensures { pointer_at result ≡ model.moved_on bytes (stands_for p) }
{
    Place {
        buffer: p.buffer,
        offset: wrapped(64, p.offset as i128 + bytes),
    }
}

/// So many elements of a number of bytes.
pub fn bytes_of(count: i128, size: u64) -> i128
    requires few { unsigned_abs count ≤ 2 ^ 63 }
    requires small { size ≤ 8 }
    ensures value { result ≡ count *ℤ pos size }
    ensures bounded { unsigned_abs result ≤ 2 ^ 100 }
{
    count * size as i128
}

/// A pointer moved on by so many elements of a number of bytes.
pub fn move_pointer(size: u64, x: &Value, y: &Value) -> Looked<Place>
    requires { size ≤ 8 }
    ensures { pointer_of result ≡ model.gives (model.MovesPointer size) (value_of x.now ∷ value_of y.now ∷ []) }
{
    match place_of(x) {
        Looked::Gives(p) => match number(y) {
            Looked::Gives(n) => Looked::Gives(moved_on(bytes_of(signed(64, n), size), p)),
            Looked::Undefined => Looked::Undefined,
            Looked::Outside => Looked::Outside,
        },
        Looked::Undefined => Looked::Undefined,
        Looked::Outside => Looked::Outside,
    }
}
