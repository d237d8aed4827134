//! The sizes of a new memref.

ghost use Rattle.std.specs.Prelude.{◌≡◌, ℕ, ◌≤◌, ◌-◌, ◌^◌, nat_lt, IfOk, map};
ghost use Rattle.number_model.specs.Answers.{and_then};
ghost use Rattle.number_model.specs.Numbers as numbers;
ghost use Rattle.operation_model.specs.Values as values;
ghost use Rattle.operation_model.specs.Straight as model;
ghost use Rattle.value_code.specs.Models.{answer_of, value_of, values_of};
ghost use Rattle.layout_code.specs.Sizes.{checked, counted, size_answer, sizes_of, taken_answer, Takes};

use number_code::{modulus, unsigned};
use run_code::Width;
use sqlite_items::{Items, at};
use std::alloc::{AllocError, Global};
use value_code::{Looked, Value, ValueList, copy_value, number};

/// A size as a value and as the number that it is.
#[derive(Debug, Drop)]
pub struct Size {
    pub value: Value,
    pub number: u64,
}

/// Sizes in order.
pub type SizeItems = Items<Size>;

/// Whether a number is a signed one of the width.
fn is_size(bits: Width, n: u64) -> bool
    ensures { result ≡ nat_lt n (2 ^ (bits.bits - 1)) }
{
    (n as u128) < modulus(bits.bits - 1)
}

/// A size that is fixed.
#[tactic(auto, using(value_code::proofs::Shapes::shapes))]
fn fixed_size(bits: Width, n: u64) -> Looked<Size>
    ensures { size_answer result ≡ checked bits.bits (values.Integer n) n }
{
    if is_size(bits, n) {
        Looked::Gives(Size {
            value: Value::Integer(n),
            number: n,
        })
    } else {
        Looked::Undefined
    }
}

/// A size that is an operand, kept as it is.
fn given_size(alloc: Global, bits: Width, x: &Value) -> Result<Looked<Size>, AllocError>
    ensures { IfOk result (λ l. size_answer l ≡ and_then (values.number (value_of x.now)) (λ n. checked bits.bits (value_of x.now) (numbers.unsigned bits.bits n))) }
{
    match number(x) {
        Looked::Gives(n) => {
            let n = unsigned(bits.bits, n);
            if is_size(bits, n) {
                let value = copy_value(alloc, x)?;
                Ok(Looked::Gives(Size { value, number: n }))
            } else {
                Ok(Looked::Undefined)
            }
        }
        Looked::Undefined => Ok(Looked::Undefined),
        Looked::Outside => Ok(Looked::Outside),
    }
}

/// A size and the number of operands that it took.
#[derive(Debug, Drop)]
pub struct Taken {
    pub size: Size,
    pub count: usize,
}

/// A size that took so many operands.
fn with_count(l: Looked<Size>, count: usize) -> Looked<Taken>
    ensures { taken_answer result ≡ counted count (size_answer l) }
{
    match l {
        Looked::Gives(size) => Looked::Gives(Taken { size, count }),
        Looked::Undefined => Looked::Undefined,
        Looked::Outside => Looked::Outside,
    }
}

/// The next size, fixed or the next operand.
fn take_size(
    alloc: Global,
    bits: Width,
    fixed: Option<u64>,
    xs: &[Value],
) -> Result<Looked<Taken>, AllocError>
    ensures { IfOk result (λ l. Takes l bits.bits fixed xs.now) }
{
    match fixed {
        Some(n) => Ok(with_count(fixed_size(bits, n), 0)),
        None => match at(xs, 0) {
            Some(x) => Ok(with_count(given_size(alloc, bits, x)?, 1)),
            None => Ok(Looked::Outside),
        },
    }
}

/// The sizes of a new memref, each fixed or the next operand.
pub fn sizes_from(
    alloc: Global,
    bits: Width,
    fixed: &[Option<u64>],
    xs: &[Value],
) -> Result<Looked<SizeItems>, AllocError>
    ensures { IfOk result (λ l. answer_of sizes_of l ≡ model.sizes_from bits.bits fixed.now (values_of xs.now)) }
{
    let mut all = Items::new(alloc);
    let mut rest = xs;
    for i in 0..fixed.len() {
        match take_size(alloc, bits, fixed[i], rest)? {
            Looked::Gives(t) => {
                let Taken { size, count } = t;
                rest = rest.split_at(count).1;
                all.push(size)?;
            }
            Looked::Undefined => return Ok(Looked::Undefined),
            Looked::Outside => return Ok(Looked::Outside),
        }
    }
    if rest.is_empty() {
        Ok(Looked::Gives(all))
    } else {
        Ok(Looked::Outside)
    }
}

/// The sizes as values.
pub fn size_values(alloc: Global, sizes: &[Size]) -> Result<ValueList, AllocError>
    ensures { IfOk result (λ vs. values_of vs ≡ model.size_values (sizes_of sizes.now)) }
{
    let mut all = Items::new(alloc);
    for s in sizes {
        all.push(copy_value(alloc, &s.value)?)?;
    }
    Ok(all)
}
