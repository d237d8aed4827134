//! Integers as signed values.

ghost use Rattle.std.specs.Prelude.{◌≡◌, ◌≤◌, ◌<◌, ◌^◌, ◌-ℤ◌, pos, IfOk, length};
ghost use Rattle.event_trees.specs.Attrs.{bits_of, negative, signed};
ghost use Rattle.term_table.specs.Terms.{term_at};

use std::alloc::AllocError;
use term_table::{Form, Terms};

/// The bits of an integer whose type is the term of this number.
pub fn bits_of(terms: &Terms, number: u32) -> Result<u32, AllocError>
    requires { number ≤ length terms.now.nodes.keys }
    ensures { IfOk result (λ n. n ≡ bits_of (term_at terms.now.nodes.keys number)) }
{
    let Some(node) = terms.get(number) else {
        return Ok(64);
    };
    match node.form {
        Form::Int => number_below(node.value),
        _ => Ok(64),
    }
}

/// A number of 32 bits, as all names and widths are.
pub fn number_below(value: u64) -> Result<u32, AllocError>
    ensures { IfOk result (λ n. n ≡ value) }
{
    match u32::try_from(value) {
        Ok(number) => Ok(number),
        Err(_) => Err(AllocError),
    }
}

/// 2 to the number of bits.
fn modulus(bits: u32) -> i128
    requires { bits ≤ 64 }
    ensures { result ≡ pos (2 ^ bits) }
{
    (1u128 << bits) as i128
}

/// A value of 64 bits, as all that nothing refuses.
fn fitting(value: i128) -> Result<i64, AllocError>
    ensures { IfOk result (λ n. n ≡ value) }
{
    match i64::try_from(value) {
        Ok(value) => Ok(value),
        Err(_) => Err(AllocError),
    }
}

/// A number without a minus as a signed number of so many bits.
pub fn signed(bits: u32, number: u128) -> Result<i64, AllocError>
    ensures { IfOk result (λ n. n ≡ signed bits number) }
{
    if bits == 0 || bits > 64 || number >= 1 << 64 {
        return Err(AllocError);
    }
    fitting(signed_below(bits, number))
}

fn signed_below(bits: u32, number: u128) -> i128
    requires low { 1 ≤ bits }
    requires high { bits ≤ 64 }
    requires below { number < 2 ^ 64 }
    ensures { result ≡ signed bits number }
{
    let number = number as i128;
    if number < modulus(bits - 1) {
        number
    } else {
        number - modulus(bits)
    }
}

/// A number behind a minus.
pub fn negative(number: u128) -> Result<i64, AllocError>
    ensures { IfOk result (λ n. n ≡ negative number) }
{
    if number >= 1 << 64 {
        return Err(AllocError);
    }
    fitting(-(number as i128))
}
