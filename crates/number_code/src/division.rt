//! Division.

ghost use Rattle.std.specs.Prelude.{◌≡◌, ℕ, ◌^◌, ◌/◌, ◌%◌, ◌<◌, ◌≤◌, ◌+ℤ◌, ◌-ℤ◌, int_div, int_rem, pos, unsigned_abs, false};
ghost use Rattle.std.specs.Int.{div_ceil};
ghost use Rattle.std.specs.Ordering.{int_eq};
ghost use Rattle.number_model.specs.Numbers as numbers;
ghost use Rattle.number_model.specs.Arithmetic as arithmetic;
ghost use Rattle.number_code.specs.Models.{answer_of};

use crate::arith::Given;
use crate::widths::{modulus, signed, unsigned, wrapped};

/// The least signed number of the width.
fn least(w: u32) -> i128
    requires low { 1 ≤ w }
    requires high { w ≤ 64 }
    ensures { result ≡ numbers.least w }
{
    -1 - (modulus(w - 1) - 1) as i128
}

/// Whether signed division is undefined.
fn no_quotient(w: u32, x: i128, y: i128) -> bool
    requires low { 1 ≤ w }
    requires high { w ≤ 64 }
    ensures { result ≡ arithmetic.no_quotient (numbers.least w) x y }
{
    y == 0 || (x == least(w) && y == -1)
}

/// The quotient, rounded towards zero.
fn quotient(x: i128, y: i128) -> i128
    requires some { int_eq y (pos 0) ≡ false }
    requires small { unsigned_abs x ≤ 2 ^ 63 }
    ensures value { result ≡ int_div x y }
    ensures small { unsigned_abs result ≤ 2 ^ 63 }
{
    x / y
}

/// Whether the quotient that is rounded towards zero lies below the exact one.
fn lies_below(x: i128, y: i128) -> bool
    requires some { int_eq y (pos 0) ≡ false }
    requires small { unsigned_abs x ≤ 2 ^ 63 }
    ensures { result ≡ arithmetic.lies_below x y }
{
    remainder(x, y) != 0 && !have_unlike_signs(x, y)
}

/// Whether the quotient that is rounded towards zero lies above the exact one.
fn lies_above(x: i128, y: i128) -> bool
    requires some { int_eq y (pos 0) ≡ false }
    requires small { unsigned_abs x ≤ 2 ^ 63 }
    ensures { result ≡ arithmetic.lies_above x y }
{
    remainder(x, y) != 0 && have_unlike_signs(x, y)
}

/// Whether just one of the two is below 0.
fn have_unlike_signs(x: i128, y: i128) -> bool
    ensures { result ≡ arithmetic.have_unlike_signs x y }
{
    (x < 0) != (y < 0)
}

/// One more.
fn one_more(x: i128) -> i128
    requires { unsigned_abs x ≤ 2 ^ 63 }
    ensures { result ≡ x +ℤ pos 1 }
{
    x + 1
}

/// One less.
fn one_less(x: i128) -> i128
    requires { unsigned_abs x ≤ 2 ^ 63 }
    ensures { result ≡ x -ℤ pos 1 }
{
    x - 1
}

/// The remainder.
fn remainder(x: i128, y: i128) -> i128
    requires some { int_eq y (pos 0) ≡ false }
    requires small { unsigned_abs x ≤ 2 ^ 63 }
    ensures { result ≡ int_rem x y }
{
    x % y
}

/// The quotient, rounded up.
fn quotient_up(x: i128, y: i128) -> i128
    requires some { int_eq y (pos 0) ≡ false }
    requires small { unsigned_abs x ≤ 2 ^ 63 }
    ensures { result ≡ arithmetic.quotient_up x y }
{
    let rounded = quotient(x, y);
    if lies_below(x, y) {
        one_more(rounded)
    } else {
        rounded
    }
}

/// The quotient, rounded down.
fn quotient_down(x: i128, y: i128) -> i128
    requires some { int_eq y (pos 0) ≡ false }
    requires small { unsigned_abs x ≤ 2 ^ 63 }
    ensures { result ≡ arithmetic.quotient_down x y }
{
    let rounded = quotient(x, y);
    if lies_above(x, y) {
        one_less(rounded)
    } else {
        rounded
    }
}

/// The quotient rounded towards zero.
pub fn divide(w: u32, a: u64, b: u64) -> Given
    requires low { 1 ≤ w }
    requires high { w ≤ 64 }
    ensures { answer_of result ≡ arithmetic.divided w int_div a b }
{
    let (x, y) = (signed(w, a), signed(w, b));
    if no_quotient(w, x, y) {
        Given::Undefined
    } else {
        Given::Number(wrapped(w, quotient(x, y)))
    }
}

/// The remainder, with the sign of the first.
pub fn rest(w: u32, a: u64, b: u64) -> Given
    requires low { 1 ≤ w }
    requires high { w ≤ 64 }
    ensures { answer_of result ≡ arithmetic.divided w int_rem a b }
{
    let (x, y) = (signed(w, a), signed(w, b));
    if no_quotient(w, x, y) {
        Given::Undefined
    } else {
        Given::Number(wrapped(w, remainder(x, y)))
    }
}

/// The quotient rounded up.
pub fn divide_up(w: u32, a: u64, b: u64) -> Given
    requires low { 1 ≤ w }
    requires high { w ≤ 64 }
    ensures { answer_of result ≡ arithmetic.divided w arithmetic.quotient_up a b }
{
    let (x, y) = (signed(w, a), signed(w, b));
    if no_quotient(w, x, y) {
        Given::Undefined
    } else {
        Given::Number(wrapped(w, quotient_up(x, y)))
    }
}

/// The quotient rounded down.
pub fn divide_down(w: u32, a: u64, b: u64) -> Given
    requires low { 1 ≤ w }
    requires high { w ≤ 64 }
    ensures { answer_of result ≡ arithmetic.divided w arithmetic.quotient_down a b }
{
    let (x, y) = (signed(w, a), signed(w, b));
    if no_quotient(w, x, y) {
        Given::Undefined
    } else {
        Given::Number(wrapped(w, quotient_down(x, y)))
    }
}

/// The unsigned quotient.
pub fn divide_unsigned(w: u32, a: u64, b: u64) -> Given
    requires { w ≤ 64 }
    ensures { answer_of result ≡ arithmetic.divided_unsigned w ◌/◌ a b }
{
    let divisor = unsigned(w, b);
    if divisor == 0 {
        Given::Undefined
    } else {
        Given::Number(unsigned(w, a) / divisor)
    }
}

/// The unsigned remainder.
pub fn rest_unsigned(w: u32, a: u64, b: u64) -> Given
    requires { w ≤ 64 }
    ensures { answer_of result ≡ arithmetic.divided_unsigned w ◌%◌ a b }
{
    let divisor = unsigned(w, b);
    if divisor == 0 {
        Given::Undefined
    } else {
        Given::Number(unsigned(w, a) % divisor)
    }
}

/// The unsigned quotient rounded up.
pub fn divide_up_unsigned(w: u32, a: u64, b: u64) -> Given
    requires { w ≤ 64 }
    ensures { answer_of result ≡ arithmetic.divided_unsigned w div_ceil a b }
{
    let divisor = unsigned(w, b);
    if divisor == 0 {
        Given::Undefined
    } else {
        Given::Number(unsigned(w, a).div_ceil(divisor))
    }
}
