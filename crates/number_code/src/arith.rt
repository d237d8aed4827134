//! The operations of two numbers, and those that change a width.

ghost use Rattle.std.specs.Prelude.{◌≡◌, ℕ, ◌≤◌, ◌+ℤ◌, ◌-ℤ◌, ◌*ℤ◌, ◌^◌, pos, not, ◌&&◌, ◌||◌, unsigned_abs};
ghost use Rattle.number_model.specs.Answers as answers;
ghost use Rattle.number_model.specs.Numbers as numbers;
ghost use Rattle.number_model.specs.Arithmetic as arithmetic;
ghost use Rattle.number_code.specs.Models.{answer_of, flags_of};

use crate::widths::{fits_signed, fits_unsigned, modulus, signed, unsigned, wrapped};

/// The promises that an operation may carry.
#[derive(Clone, Copy, PartialEq, Eq, Debug)]
pub struct Flags {
    pub signed: bool,
    pub unsigned: bool,
}

/// What an operation gives.
#[derive(Clone, Copy, PartialEq, Eq, Debug)]
pub enum Given {
    Number(u64),
    Undefined,
}

/// The operations of two numbers that give a number of the same width.
#[derive(Clone, Copy, PartialEq, Eq, Debug)]
pub enum Binary {
    Add(Flags),
    Subtract(Flags),
    Multiply(Flags),
    ShiftLeft(Flags),
    Divide,
    DivideUnsigned,
    Remainder,
    RemainderUnsigned,
    DivideUp,
    DivideDown,
    DivideUpUnsigned,
    And,
    Or,
    Xor,
    ShiftRight,
    ShiftRightUnsigned,
    Greater,
    GreaterUnsigned,
    Less,
    LessUnsigned,
}

/// A number, or undefined where the test holds.
fn unless(broken: bool, number: u64) -> Given
    ensures { answer_of result ≡ answers.undefined_if broken (answers.Gives number) }
{
    if broken {
        Given::Undefined
    } else {
        Given::Number(number)
    }
}

/// Whether a promise is broken, where the result fits as signed and as unsigned or not.
fn breaks(flags: Flags, fits: bool, fits_too: bool) -> bool
    ensures { result ≡ ((flags.signed && not fits) || (flags.unsigned && not fits_too)) }
{
    (flags.signed && !fits) || (flags.unsigned && !fits_too)
}

/// A result that wraps, from the one over signed numbers and the one over unsigned numbers.
fn wrapping(flags: Flags, w: u32, result_signed: i128, plain: i128) -> Given
    requires low { 1 ≤ w }
    requires high { w ≤ 64 }
    ensures { answer_of result ≡ arithmetic.wrapping (flags_of flags) w result_signed plain }
{
    unless(
        breaks(
            flags,
            fits_signed(w, result_signed),
            fits_unsigned(w, plain),
        ),
        wrapped(w, plain),
    )
}

/// The same, where the one over unsigned numbers is below 2 to the 128.
fn wrapping_large(flags: Flags, w: u32, result_signed: i128, plain: u128) -> Given
    requires low { 1 ≤ w }
    requires high { w ≤ 64 }
    ensures { answer_of result ≡ arithmetic.wrapping (flags_of flags) w result_signed (pos plain) }
{
    unless(
        breaks(flags, fits_signed(w, result_signed), plain < modulus(w)),
        (plain % modulus(w)) as u64,
    )
}

/// The difference of two integers of 64 bits at most.
fn minus(x: i128, y: i128) -> i128
    requires first { unsigned_abs x ≤ 2 ^ 64 }
    requires second { unsigned_abs y ≤ 2 ^ 64 }
    ensures { result ≡ x -ℤ y }
{
    x - y
}

/// The product of two signed numbers of 64 bits.
fn times(x: i128, y: i128) -> i128
    requires first { unsigned_abs x ≤ 2 ^ 63 }
    requires second { unsigned_abs y ≤ 2 ^ 63 }
    ensures { result ≡ x *ℤ y }
{
    x * y
}

pub(crate) fn add(flags: Flags, w: u32, a: u64, b: u64) -> Given
    requires low { 1 ≤ w }
    requires high { w ≤ 64 }
    ensures { answer_of result ≡ arithmetic.add (flags_of flags) w a b }
{
    wrapping(
        flags,
        w,
        signed(w, a) + signed(w, b),
        unsigned(w, a) as i128 + unsigned(w, b) as i128,
    )
}

pub(crate) fn subtract(flags: Flags, w: u32, a: u64, b: u64) -> Given
    requires low { 1 ≤ w }
    requires high { w ≤ 64 }
    ensures { answer_of result ≡ arithmetic.subtract (flags_of flags) w a b }
{
    wrapping(
        flags,
        w,
        minus(signed(w, a), signed(w, b)),
        minus(unsigned(w, a) as i128, unsigned(w, b) as i128),
    )
}

pub(crate) fn multiply(flags: Flags, w: u32, a: u64, b: u64) -> Given
    requires low { 1 ≤ w }
    requires high { w ≤ 64 }
    ensures { answer_of result ≡ arithmetic.multiply (flags_of flags) w a b }
{
    wrapping_large(
        flags,
        w,
        times(signed(w, a), signed(w, b)),
        unsigned(w, a) as u128 * unsigned(w, b) as u128,
    )
}

pub(crate) fn shift_left(flags: Flags, w: u32, a: u64, b: u64) -> Given
    requires low { 1 ≤ w }
    requires high { w ≤ 64 }
    ensures { answer_of result ≡ arithmetic.shift_left (flags_of flags) w a b }
{
    let amount = unsigned(w, b);
    if amount < w as u64 {
        let factor = modulus(amount as u32);
        wrapping_large(
            flags,
            w,
            times(signed(w, a), factor as i128),
            unsigned(w, a) as u128 * factor,
        )
    } else {
        Given::Undefined
    }
}

pub(crate) fn shift_right(w: u32, a: u64, b: u64) -> Given
    requires low { 1 ≤ w }
    requires high { w ≤ 64 }
    ensures { answer_of result ≡ arithmetic.shift_right_signed w a b }
{
    let amount = unsigned(w, b);
    if amount < w as u64 {
        Given::Number(wrapped(w, signed(w, a) >> amount))
    } else {
        Given::Undefined
    }
}

pub(crate) fn shift_right_unsigned(w: u32, a: u64, b: u64) -> Given
    requires low { 1 ≤ w }
    requires high { w ≤ 64 }
    ensures { answer_of result ≡ arithmetic.shift_right_unsigned w a b }
{
    let amount = unsigned(w, b);
    if amount < w as u64 {
        Given::Number(unsigned(w, a) >> amount)
    } else {
        Given::Undefined
    }
}

/// The lowest bits of a number, undefined where the signed or the unsigned one changes that a flag speaks of.
pub(crate) fn truncate(flags: Flags, m: u32, number: i128, plain: u64, a: u64) -> Given
    requires low { 1 ≤ m }
    requires high { m ≤ 64 }
    ensures { answer_of result ≡ answers.undefined_if (arithmetic.breaks (flags_of flags) m number (pos plain)) (answers.Gives (numbers.unsigned m a)) }
{
    unless(
        breaks(
            flags,
            fits_signed(m, number),
            fits_unsigned(m, plain as i128),
        ),
        unsigned(m, a),
    )
}
