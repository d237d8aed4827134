//! Whether numbers at the same places are renamed one-to-one.

ghost use Rattle.std.specs.Prelude.{◌≡◌, ◌↔◌, IsTrue, IfOk};
ghost use Rattle.tree_shape.specs.Renaming.{Renames, OneToOne};

use std::alloc::Global;
use std::collections::HashMap;
use tree_model::NoMemory;

/// Whether a renaming takes the first list to the second.
fn renames(alloc: Global, from: &[u32], to: &[u32]) -> Result<bool, NoMemory>
    ensures { IfOk result (λ found. IsTrue found ↔ Renames from.now to.now) }
{
    if from.len() != to.len() {
        return Ok(false);
    }
    let mut names = HashMap::new(alloc);
    for (x, y) in from.iter().zip(to) {
        if let Some(name) = names.insert(*x, *y)? {
            if name != *y {
                return Ok(false);
            }
        }
    }
    Ok(true)
}

/// Whether a renaming that is one-to-one takes the first list to the second.
pub fn one_to_one(alloc: Global, a: &[u32], b: &[u32]) -> Result<bool, NoMemory>
    ensures { IfOk result (λ found. IsTrue found ↔ OneToOne a.now b.now) }
{
    if !renames(alloc, a, b)? {
        return Ok(false);
    }
    renames(alloc, b, a)
}
