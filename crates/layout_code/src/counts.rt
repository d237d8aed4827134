//! The number of elements of a new memref, and its strides.

ghost use Rattle.std.specs.Prelude.{◌≡◌, ℕ, ◌≤◌, ◌^◌, ◌*◌, ◌%◌, min, IfOk};
ghost use Rattle.std.specs.Prelude.{reverse};
ghost use Rattle.operation_model.specs.Straight as model;
ghost use Rattle.value_code.specs.Models.{values_of};
ghost use Rattle.layout_code.specs.Sizes.{sizes_of};

use crate::sizes::Size;
use number_code::unsigned;
use run_code::Width;
use sqlite_items::Items;
use std::alloc::{AllocError, Global};
use value_code::{Value, ValueList};

/// A number up to 2 to the 65.
fn capped(n: u128) -> u128
    ensures { result ≡ min n (2 ^ 65) }
{
    n.min(1 << 65)
}

/// The number of elements, up to 2 to the 65.
pub fn element_count(sizes: &[Size]) -> u128
    ensures { result ≡ min (model.elements (sizes_of sizes.now)) (2 ^ 65) }
{
    let mut count: u128 = 1;
    let mut i = sizes.len();
    while i > 0 {
        i -= 1;
        count = capped(count.saturating_mul(sizes[i].number as u128));
    }
    count
}

/// A product modulo 2 to the width.
fn product(bits: Width, a: u64, b: u64) -> u64
    ensures { result ≡ a * b % 2 ^ bits.bits }
{
    (a as u128 * b as u128 % (1 << bits.bits)) as u64
}

/// The strides as values, the last one first.
fn strides_from_last(alloc: Global, bits: Width, sizes: &[Size]) -> Result<Vec<Value>, AllocError>
    ensures { IfOk result (λ vs. values_of (reverse vs.items) ≡ model.strides bits.bits (sizes_of sizes.now)) }
{
    let mut all = Vec::new(alloc);
    let mut stride = unsigned(bits.bits, 1);
    let mut i = sizes.len();
    while i > 0 {
        i -= 1;
        all.push(Value::Integer(stride))?;
        stride = product(bits, sizes[i].number, stride);
    }
    Ok(all)
}

/// Each stride is the product of the later sizes, modulo 2 to the width.
pub fn stride_values(alloc: Global, bits: Width, sizes: &[Size]) -> Result<ValueList, AllocError>
    ensures { IfOk result (λ vs. values_of vs ≡ model.strides bits.bits (sizes_of sizes.now)) }
{
    let mut strides = strides_from_last(alloc, bits, sizes)?;
    strides.as_mut_slice().reverse();
    Ok(Items::from_vec(strides))
}
