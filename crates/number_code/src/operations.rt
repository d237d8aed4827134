//! The operations of two numbers, comparisons, and changes of width.

ghost use Rattle.std.specs.Prelude.{◌≡◌, ℕ, ◌≤◌};
ghost use Rattle.number_model.specs.Arithmetic as arithmetic;
ghost use Rattle.number_code.specs.Models.{answer_of, binary_of, comparison_of, resize_of, IsResize};

use crate::arith::{
    Binary, Flags, Given, add, multiply, shift_left, shift_right, shift_right_unsigned, subtract,
    truncate,
};
use crate::division::{
    divide, divide_down, divide_unsigned, divide_up, divide_up_unsigned, rest, rest_unsigned,
};
use crate::widths::{signed, unsigned, wrapped};

/// The comparisons of two numbers.
#[derive(Clone, Copy, PartialEq, Eq, Debug)]
pub enum Comparison {
    Equal,
    Unequal,
    Below,
    AtMost,
    Above,
    AtLeast,
    BelowUnsigned,
    AtMostUnsigned,
    AboveUnsigned,
    AtLeastUnsigned,
}

/// The operations of one number that give one of another width.
#[derive(Clone, Copy, PartialEq, Eq, Debug)]
pub enum Resize {
    ExtendSigned(u32),
    Extend(u32),
    Truncate(Flags, u32),
    Keep,
}

/// What an operation of two numbers gives at a width.
pub fn of_two(o: Binary, w: u32, a: u64, b: u64) -> Given
    requires low { 1 ≤ w }
    requires high { w ≤ 64 }
    ensures { answer_of result ≡ arithmetic.binary (binary_of o) w a b }
{
    match o {
        Binary::Add(flags) => add(flags, w, a, b),
        Binary::Subtract(flags) => subtract(flags, w, a, b),
        Binary::Multiply(flags) => multiply(flags, w, a, b),
        Binary::ShiftLeft(flags) => shift_left(flags, w, a, b),
        Binary::Divide => divide(w, a, b),
        Binary::DivideUnsigned => divide_unsigned(w, a, b),
        Binary::Remainder => rest(w, a, b),
        Binary::RemainderUnsigned => rest_unsigned(w, a, b),
        Binary::DivideUp => divide_up(w, a, b),
        Binary::DivideDown => divide_down(w, a, b),
        Binary::DivideUpUnsigned => divide_up_unsigned(w, a, b),
        Binary::And => Given::Number(unsigned(w, a) & unsigned(w, b)),
        Binary::Or => Given::Number(unsigned(w, a) | unsigned(w, b)),
        Binary::Xor => Given::Number(unsigned(w, a) ^ unsigned(w, b)),
        Binary::ShiftRight => shift_right(w, a, b),
        Binary::ShiftRightUnsigned => shift_right_unsigned(w, a, b),
        Binary::Greater => Given::Number(if signed(w, b) < signed(w, a) { a } else { b }),
        Binary::GreaterUnsigned => Given::Number(if unsigned(w, b) < unsigned(w, a) {
            a
        } else {
            b
        }),
        Binary::Less => Given::Number(if signed(w, a) < signed(w, b) { a } else { b }),
        Binary::LessUnsigned => Given::Number(if unsigned(w, a) < unsigned(w, b) {
            a
        } else {
            b
        }),
    }
}

/// Whether a comparison holds at a width.
pub fn compares(c: Comparison, w: u32, a: u64, b: u64) -> bool
    requires low { 1 ≤ w }
    requires high { w ≤ 64 }
    ensures { result ≡ arithmetic.compares (comparison_of c) w a b }
{
    match c {
        Comparison::Equal => unsigned(w, a) == unsigned(w, b),
        Comparison::Unequal => unsigned(w, a) != unsigned(w, b),
        Comparison::Below => signed(w, a) < signed(w, b),
        Comparison::AtMost => signed(w, a) <= signed(w, b),
        Comparison::Above => signed(w, b) < signed(w, a),
        Comparison::AtLeast => signed(w, b) <= signed(w, a),
        Comparison::BelowUnsigned => unsigned(w, a) < unsigned(w, b),
        Comparison::AtMostUnsigned => unsigned(w, a) <= unsigned(w, b),
        Comparison::AboveUnsigned => unsigned(w, b) < unsigned(w, a),
        Comparison::AtLeastUnsigned => unsigned(w, b) <= unsigned(w, a),
    }
}

/// A number of a width as one of another.
pub fn resized(r: Resize, w: u32, a: u64) -> Given
    requires low { 1 ≤ w }
    requires high { w ≤ 64 }
    requires other { IsResize r }
    ensures { answer_of result ≡ arithmetic.resize (resize_of r) w a }
{
    match r {
        Resize::ExtendSigned(m) => Given::Number(wrapped(m, signed(w, a))),
        Resize::Extend(_) => Given::Number(unsigned(w, a)),
        Resize::Truncate(flags, m) => truncate(flags, m, signed(w, a), unsigned(w, a), a),
        Resize::Keep => Given::Number(a),
    }
}
