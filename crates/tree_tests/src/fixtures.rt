//! Trees that the tests build.

ghost use Rattle.std.specs.Prelude.{◌≡◌, ◌∷◌, [], IfOk};

use sqlite_items::Items;
use std::alloc::Global;
pub use tree_model::{entry, one};
use tree_model::{BlockTree, Bytes, NoMemory, OpTree, TypeTree, ValueList};

pub fn text(alloc: Global, bytes: &[u8]) -> Result<Bytes, NoMemory>
    ensures { IfOk result (λ b. b ≡ bytes.now) }
{
    Bytes::from_slice(alloc, bytes)
}

pub fn two<T: Drop>(alloc: Global, first: T, second: T) -> Result<Items<T>, NoMemory>
    ensures { IfOk result (λ xs. xs ≡ first ∷ second ∷ []) }
{
    let mut items = one(alloc, first)?;
    items.push(second)?;
    Ok(items)
}

/// Values with these numbers and integer types of these widths.
pub fn values(alloc: Global, pairs: &[(u32, u32)]) -> Result<ValueList, NoMemory> {
    let mut list = Items::new(alloc);
    for (value, width) in pairs {
        list.push((*value, TypeTree::Int(*width)))?;
    }
    Ok(list)
}

/// An operation with no dictionary, region or successor.
pub fn plain_op(
    alloc: Global,
    name: &[u8],
    results: &[(u32, u32)],
    operands: &[u32],
) -> Result<OpTree, NoMemory> {
    let results = values(alloc, results)?;
    let operands = Items::from_slice(alloc, operands)?;
    tree_model::plain_op(alloc, name, results, operands, Items::new(alloc))
}

/// A block without operations.
pub fn block(alloc: Global, label: u32, args: &[(u32, u32)]) -> Result<BlockTree, NoMemory> {
    Ok(BlockTree {
        label,
        args: values(alloc, args)?,
        ops: Items::new(alloc),
    })
}
