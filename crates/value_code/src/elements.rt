//! The places of elements of memrefs.

ghost use Rattle.std.specs.Prelude.{◌≡◌, ℕ, ◌≤◌, ◌+◌, ◌*◌, ◌%◌, ◌^◌};
ghost use Rattle.number_model.specs.Answers.{with_answer};
ghost use Rattle.number_model.specs.Numbers as numbers;
ghost use Rattle.operation_model.specs.Pures as model;
ghost use Rattle.value_code.specs.Models.{aligned_place, index_and_stride, looked_of, place_at, place_looked_of, number_in, step_of, sum_of, value_of, values_of};

use crate::look::{Looked, number, place_of};
use crate::parts::part_at;
use crate::pointers::{bytes_of, moved_on};
use crate::value::{Place, Value};
use number_code::signed;

/// Whether an index is from 0 to the size less 1, both as signed numbers.
fn is_index(bits: u32, i: u64, size: u64) -> bool
    requires low { 1 ≤ bits }
    requires high { bits ≤ 64 }
    ensures { result ≡ model.is_index bits i size }
{
    0 <= signed(bits, i) && signed(bits, i) < signed(bits, size)
}

/// The part at a path as an integer that is looked at.
fn number_at(path: &[u64], m: &Value) -> Looked<u64>
    ensures { looked_of result ≡ number_in path.now (value_of m.now) }
{
    match part_at(path, m) {
        Some(part) => number(part),
        None => Looked::Outside,
    }
}

/// What is added for the index of a dimension: the index and its stride.
fn step(bits: u32, m: &Value, k: u64, x: &Value) -> Looked<(u64, u64)>
    requires low { 1 ≤ bits }
    requires high { bits ≤ 64 }
    ensures { step_of result ≡ index_and_stride bits (value_of m.now) k (value_of x.now) }
{
    match number(x) {
        Looked::Gives(i) => match number_at(&[3, k], m) {
            Looked::Gives(size) => match number_at(&[4, k], m) {
                Looked::Gives(stride) => {
                    if is_index(bits, i, size) {
                        Looked::Gives((i, stride))
                    } else {
                        Looked::Undefined
                    }
                }
                Looked::Undefined => Looked::Undefined,
                Looked::Outside => Looked::Outside,
            },
            Looked::Undefined => Looked::Undefined,
            Looked::Outside => Looked::Outside,
        },
        Looked::Undefined => Looked::Undefined,
        Looked::Outside => Looked::Outside,
    }
}

/// A sum on with a product, modulo 2 to the 64.
fn add_product(sum: u64, i: u64, stride: u64) -> u64
    ensures { result ≡ (sum + i * stride) % 2 ^ 64 }
{
    ((sum as u128 + i as u128 * stride as u128) % (1 << 64)) as u64
}

/// The offset and the sum of each index times its stride. It counts as a signed number of indices, and is kept modulo 2 to the 64.
fn indexed(bits: u32, m: &Value, offset: u64, xs: &[Value]) -> Looked<u64>
    requires low { 1 ≤ bits }
    requires high { bits ≤ 64 }
    ensures { sum_of bits result ≡ with_answer (numbers.signed bits) (model.indexed bits (value_of m.now) 0 offset (values_of xs.now)) }
{
    let mut sum = offset;
    for k in 0..xs.len() {
        match step(bits, m, k as u64, &xs[k]) {
            Looked::Gives((i, stride)) => sum = add_product(sum, i, stride),
            Looked::Undefined => return Looked::Undefined,
            Looked::Outside => return Looked::Outside,
        }
    }
    Looked::Gives(sum)
}

/// The place of an element: the aligned pointer moved on by the elements that the offset and the indices count.
pub fn element_place(bits: u32, size: u64, m: &Value, xs: &[Value]) -> Looked<Place>
    requires low { 1 ≤ bits }
    requires high { bits ≤ 64 }
    requires small { size ≤ 8 }
    ensures { place_at result ≡ model.element_place bits size (value_of m.now) (values_of xs.now) }
{
    match aligned(m) {
        Looked::Gives(place) => match number_at(&[2], m) {
            Looked::Gives(offset) => match indexed(bits, m, offset, xs) {
                Looked::Gives(sum) => Looked::Gives(moved_on(
                    bytes_of(signed(bits, sum), size),
                    place,
                )),
                Looked::Undefined => Looked::Undefined,
                Looked::Outside => Looked::Outside,
            },
            Looked::Undefined => Looked::Undefined,
            Looked::Outside => Looked::Outside,
        },
        Looked::Undefined => Looked::Undefined,
        Looked::Outside => Looked::Outside,
    }
}

/// The place of the aligned pointer of a memref.
fn aligned(m: &Value) -> Looked<Place>
    ensures { place_looked_of result ≡ aligned_place (value_of m.now) }
{
    match part_at(&[1], m) {
        Some(pointer) => place_of(pointer),
        None => Looked::Outside,
    }
}
