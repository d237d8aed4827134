//! Lists with a number more or less.

ghost use Rattle.std.specs.Prelude.{◌≡◌, ◌<◌, ◌≤◌, ℕ, length, insert, remove, IfOk};
ghost use Rattle.flat_model.specs.Flat.{AllBelow};

use crate::held::Held;
use std::alloc::{AllocError, Global};
use tree_model::NoMemory;

/// The numbers, with one more before the one at a place, or at the end.
pub fn inserted(
    alloc: Global,
    numbers: &[u32],
    at: usize,
    number: u32,
) -> Result<Vec<u32>, NoMemory>
    requires { at ≤ length numbers.now }
    ensures list { IfOk result (λ list. list.items ≡ insert numbers.now at number) }
    ensures below { (bound : ℕ) → AllBelow bound numbers.now → number < bound → IfOk result (λ list. AllBelow bound list.items) }
{
    let mut list = Vec::from_slice(alloc, numbers)?;
    list.insert(at, number)?;
    Ok(list)
}

/// The numbers without the one at a place.
pub fn removed(alloc: Global, numbers: &[u32], at: usize) -> Result<Vec<u32>, NoMemory>
    requires { at < length numbers.now }
    ensures list { IfOk result (λ list. list.items ≡ remove numbers.now at) }
    ensures below { (bound : ℕ) → AllBelow bound numbers.now → IfOk result (λ list. AllBelow bound list.items) }
{
    let mut list = Vec::from_slice(alloc, numbers)?;
    list.remove(at);
    Ok(list)
}

/// A copy of a list, held.
pub fn held_list(alloc: Global, numbers: &[u32]) -> Result<Held<Vec<u32>>, NoMemory>
    ensures { IfOk result (λ held. held.items ≡ numbers.now) }
{
    let list = Vec::from_slice(alloc, numbers)?;
    match Held::new(alloc, list) {
        Ok(held) => Ok(held),
        Err(_) => Err(AllocError),
    }
}
