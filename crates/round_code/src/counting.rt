//! Counting loops and switches.

ghost use Rattle.std.specs.Prelude.{◌≡◌, ℕ};
ghost use Rattle.operation_model.specs.Values as values;
ghost use Rattle.form_model.specs.Codes.{Blocks};
ghost use Rattle.machine_model.specs.Machine as model;
ghost use Rattle.value_code.specs.Models.{looked_of, value_of};
ghost use Rattle.round_code.specs.Counts.{counting_of, start_of};

use number_code::{fits_signed, signed, unsigned, wrapped};
use run_code::Width;
use value_code::{Looked, Value, number};

/// A loop that counts: the width of its numbers, the bound and the step.
#[derive(Clone, Copy, PartialEq, Eq, Debug)]
pub struct Counting {
    pub width: Width,
    pub upper: u64,
    pub by: u64,
}

/// Whether the loop has a round at this number.
pub fn has_round(c: Counting, i: u64) -> bool
    ensures { (body : Blocks) → result ≡ model.has_round (counting_of c body) i }
{
    signed(c.width.bits, i) < signed(c.width.bits, c.upper)
}

/// The next number, undefined where it passes the signed range.
pub fn next_number(c: Counting, i: u64) -> Looked<u64>
    ensures { (body : Blocks) → looked_of result ≡ model.next_number (counting_of c body) i }
{
    let next = signed(c.width.bits, i) + signed(c.width.bits, c.by);
    if fits_signed(c.width.bits, next) {
        Looked::Gives(wrapped(c.width.bits, next))
    } else {
        Looked::Undefined
    }
}

/// The first number of a loop that begins, and the loop.
#[derive(Clone, Copy, PartialEq, Eq, Debug)]
pub struct Start {
    pub first: u64,
    pub counting: Counting,
}

/// A counting loop that begins: from the first number to the second by the third. It is undefined where the step is 0 or less.
pub fn counts(w: Width, x: &Value, y: &Value, z: &Value) -> Looked<Start>
    ensures { (body : Blocks) → start_of result body ≡ model.counts w.bits (value_of x.now) (value_of y.now) (value_of z.now) body }
{
    match number(x) {
        Looked::Gives(first) => match number(y) {
            Looked::Gives(upper) => counts_by(w, first, upper, z),
            Looked::Undefined => Looked::Undefined,
            Looked::Outside => Looked::Outside,
        },
        Looked::Undefined => Looked::Undefined,
        Looked::Outside => Looked::Outside,
    }
}

/// A counting loop that begins, by a step that is looked at.
fn counts_by(w: Width, first: u64, upper: u64, z: &Value) -> Looked<Start>
    ensures { (body : Blocks) → start_of result body ≡ model.counts w.bits (values.Integer first) (values.Integer upper) (value_of z.now) body }
{
    match number(z) {
        Looked::Gives(by) => {
            if signed(w.bits, by) > 0 {
                let counting = Counting {
                    width: w,
                    upper,
                    by,
                };
                Looked::Gives(Start { first, counting })
            } else {
                Looked::Undefined
            }
        }
        Looked::Undefined => Looked::Undefined,
        Looked::Outside => Looked::Outside,
    }
}

/// The region of a switch: that of the first case that is equal to the number, counted from 1, else the first one.
pub fn case_of(w: Width, n: u64, cases: &[i64]) -> usize
    ensures { result ≡ model.case_of w.bits n 1 cases.now }
{
    for i in 0..cases.len() {
        if unsigned(w.bits, n) == wrapped(w.bits, cases[i] as i128) {
            return i + 1;
        }
    }
    0
}
