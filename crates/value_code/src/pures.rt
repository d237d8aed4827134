//! The operations that only compute integers of integers.

ghost use Rattle.std.specs.Prelude.{◌≡◌, ℕ, ◌≤◌, List, [], ◌∷◌};
ghost use Rattle.number_model.specs.Arithmetic as arithmetic;
ghost use Rattle.operation_model.specs.Pures as model;
ghost use Rattle.number_code.specs.Models.{answer_of, binary_of, comparison_of, resize_of, IsResize};
ghost use Rattle.value_code.specs.Models.{integer_of, looked_of, truth_of, value_of};

use crate::look::{Looked, number};
use crate::value::Value;
use number_code::{Binary, Comparison, Given, Resize, compares, of_two, resized, unsigned};

/// What was given, as what looking gives.
fn given(g: Given) -> Looked<u64>
    ensures { looked_of result ≡ answer_of g }
{
    match g {
        Given::Number(n) => Looked::Gives(n),
        Given::Undefined => Looked::Undefined,
    }
}

/// What an operation of two integers gives.
pub fn two_numbers(o: Binary, w: u32, x: &Value, y: &Value) -> Looked<u64>
    requires low { 1 ≤ w }
    requires high { w ≤ 64 }
    ensures { integer_of result ≡ model.gives (model.TwoNumbers (binary_of o) w) (value_of x.now ∷ value_of y.now ∷ []) }
{
    match number(x) {
        Looked::Gives(a) => match number(y) {
            Looked::Gives(b) => given(of_two(o, w, a, b)),
            Looked::Undefined => Looked::Undefined,
            Looked::Outside => Looked::Outside,
        },
        Looked::Undefined => Looked::Undefined,
        Looked::Outside => Looked::Outside,
    }
}

/// What a comparison of two integers gives.
pub fn compared(o: Comparison, w: u32, x: &Value, y: &Value) -> Looked<u64>
    requires low { 1 ≤ w }
    requires high { w ≤ 64 }
    ensures { integer_of result ≡ model.gives (model.Compares (comparison_of o) w) (value_of x.now ∷ value_of y.now ∷ []) }
{
    match number(x) {
        Looked::Gives(a) => match number(y) {
            Looked::Gives(b) => Looked::Gives(bit(compares(o, w, a, b))),
            Looked::Undefined => Looked::Undefined,
            Looked::Outside => Looked::Outside,
        },
        Looked::Undefined => Looked::Undefined,
        Looked::Outside => Looked::Outside,
    }
}

/// A truth value as a number of one bit.
fn bit(holds: bool) -> u64
    ensures { result ≡ arithmetic.bit holds }
{
    if holds { 1 } else { 0 }
}

/// What a change of width gives.
pub fn with_width(r: Resize, w: u32, x: &Value) -> Looked<u64>
    requires low { 1 ≤ w }
    requires high { w ≤ 64 }
    requires other { IsResize r }
    ensures { integer_of result ≡ model.gives (model.Resizes (resize_of r) w) (value_of x.now ∷ []) }
{
    match number(x) {
        Looked::Gives(a) => given(resized(r, w, a)),
        Looked::Undefined => Looked::Undefined,
        Looked::Outside => Looked::Outside,
    }
}

/// The truth value that is looked at.
pub fn truth(c: &Value) -> Looked<bool>
    ensures { truth_of result ≡ model.truth (value_of c.now) }
{
    match number(c) {
        Looked::Gives(n) => Looked::Gives(unsigned(1, n) == 1),
        Looked::Undefined => Looked::Undefined,
        Looked::Outside => Looked::Outside,
    }
}
