//! Sameness of functions.

ghost use Rattle.std.specs.Prelude.{◌≡◌, ◌↔◌, IsTrue, IfOk};
ghost use Rattle.tree_shape.specs.Same.{Same};
ghost use Rattle.tree_shape.specs.NumbersOf.{values_of_op, labels_of_op};

use crate::alike::alike_op;
use crate::numbers::{Numbers, put_op};
use crate::renaming::one_to_one;
use std::alloc::Global;
use tree_model::{FuncTree, NoMemory, OpTree};

fn numbers_of(alloc: Global, op: &OpTree) -> Result<Numbers, NoMemory>
    ensures values { IfOk result (λ n. n.values.items ≡ values_of_op op.now) }
    ensures labels { IfOk result (λ n. n.labels.items ≡ labels_of_op op.now) }
{
    let mut numbers = Numbers::new(alloc);
    put_op(&mut numbers, op)?;
    Ok(numbers)
}

/// Whether two functions are one up to a one-to-one renaming of their values and one of their labels.
pub fn same_shape(alloc: Global, a: &FuncTree, b: &FuncTree) -> Result<bool, NoMemory>
    ensures { IfOk result (λ same. IsTrue same ↔ Same a.now b.now) }
{
    if !alike_op(&a.op, &b.op) {
        return Ok(false);
    }
    let left = numbers_of(alloc, &a.op)?;
    let right = numbers_of(alloc, &b.op)?;
    if !one_to_one(alloc, left.values.as_slice(), right.values.as_slice())? {
        return Ok(false);
    }
    one_to_one(alloc, left.labels.as_slice(), right.labels.as_slice())
}
