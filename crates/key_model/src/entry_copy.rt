//! Copies of entries.

ghost use Rattle.std.specs.Prelude.{◌≡◌, IfOk};

use crate::entry::{Entry, Head};
use sqlite_items::Items;
use std::alloc::Global;
use tree_model::{NoMemory, copy_names};

/// The same head.
pub fn copy_head(alloc: Global, head: &Head) -> Result<Head, NoMemory>
    ensures { IfOk result (λ copy. copy ≡ head.now) }
{
    match head {
        Head::TInt(width) => Ok(Head::TInt(*width)),
        Head::TIndex => Ok(Head::TIndex),
        Head::TMemref(dims) => Ok(Head::TMemref(Items::from_slice(alloc, dims.as_slice())?)),
        Head::TFunc(inputs) => Ok(Head::TFunc(*inputs)),
        Head::TPtr => Ok(Head::TPtr),
        Head::TVoid => Ok(Head::TVoid),
        Head::TStruct => Ok(Head::TStruct),
        Head::TArray(n) => Ok(Head::TArray(*n)),
        Head::TLlvmFunc => Ok(Head::TLlvmFunc),
        Head::Unit => Ok(Head::Unit),
        Head::Int(value) => Ok(Head::Int(*value)),
        Head::Str(text) => Ok(Head::Str(text.copy(alloc)?)),
        Head::List => Ok(Head::List),
        Head::Dict(names) => Ok(Head::Dict(copy_names(alloc, names.as_slice())?)),
        Head::OfType => Ok(Head::OfType),
        Head::Symbol(name) => Ok(Head::Symbol(name.copy(alloc)?)),
        Head::Ints(width, numbers) => {
            let numbers = Items::from_slice(alloc, numbers.as_slice())?;
            Ok(Head::Ints(*width, numbers))
        }
        Head::Dialect(name, words) => {
            let name = name.copy(alloc)?;
            let words = copy_names(alloc, words.as_slice())?;
            Ok(Head::Dialect(name, words))
        }
    }
}

/// The same entry.
pub fn copy_entry(alloc: Global, entry: &Entry) -> Result<Entry, NoMemory>
    ensures { IfOk result (λ copy. copy ≡ entry.now) }
{
    let head = copy_head(alloc, &entry.head)?;
    let children = Items::from_slice(alloc, entry.children.as_slice())?;
    Ok(Entry { head, children })
}
