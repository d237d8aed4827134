//! The outermost level of a key.

ghost use Rattle.std.specs.Prelude.{◌≡◌, IfOk};
ghost use Rattle.key_model.specs.Parts.{type_head, attr_head, names_of};
ghost use Rattle.tree_model.specs.declared.type_tree.TypeTree.{out-TypeTree};
ghost use Rattle.tree_model.specs.declared.attr_tree.AttrTree.{out-AttrTree};

use crate::entry::Head;
use sqlite_items::Items;
use std::alloc::{AllocError, Global};
use tree_model::{AttrTree, Name, NameList, NoMemory, TypeTree};

/// The outermost level of a type. A function type of 2^32 inputs is want of memory.
pub fn type_head(alloc: Global, t: &TypeTree) -> Result<Head, NoMemory>
    ensures { IfOk result (λ head. head ≡ type_head (out-TypeTree t.now)) }
{
    match t {
        TypeTree::Int(width) => Ok(Head::TInt(*width)),
        TypeTree::Index => Ok(Head::TIndex),
        TypeTree::Memref(dims, _) => Ok(Head::TMemref(Items::from_slice(alloc, dims.as_slice())?)),
        TypeTree::Func(inputs, _) => match u32::try_from(inputs.len()) {
            Ok(count) => Ok(Head::TFunc(count)),
            Err(_) => Err(AllocError),
        },
        TypeTree::Ptr => Ok(Head::TPtr),
        TypeTree::Void => Ok(Head::TVoid),
        TypeTree::Struct(_) => Ok(Head::TStruct),
        TypeTree::Array(n, _) => Ok(Head::TArray(*n)),
        TypeTree::LlvmFunc(_, _) => Ok(Head::TLlvmFunc),
    }
}

fn entry_names(alloc: Global, entries: &[(Name, AttrTree)]) -> Result<NameList, NoMemory>
    ensures { IfOk result (λ names. names ≡ names_of entries.now) }
{
    let mut names = Vec::with_capacity(alloc, entries.len())?;
    for entry in entries {
        names.push(entry.0.copy(alloc)?)?;
    }
    Ok(Items::from_vec(names))
}

// Copies of names, with room for no more.
fn kept_names(alloc: Global, names: &[Name]) -> Result<NameList, NoMemory>
    ensures { IfOk result (λ copies. copies ≡ names.now) }
{
    let mut copies = Vec::with_capacity(alloc, names.len())?;
    for name in names {
        copies.push(name.copy(alloc)?)?;
    }
    Ok(Items::from_vec(copies))
}

/// The outermost level of an attribute.
pub fn attr_head(alloc: Global, a: &AttrTree) -> Result<Head, NoMemory>
    ensures { IfOk result (λ head. head ≡ attr_head (out-AttrTree a.now)) }
{
    match a {
        AttrTree::Unit => Ok(Head::Unit),
        AttrTree::Int(value, _) => Ok(Head::Int(*value)),
        AttrTree::Str(text) => Ok(Head::Str(text.copy(alloc)?)),
        AttrTree::List(_) => Ok(Head::List),
        AttrTree::Dict(entries) => Ok(Head::Dict(entry_names(alloc, entries.as_slice())?)),
        AttrTree::OfType(_) => Ok(Head::OfType),
        AttrTree::Symbol(name) => Ok(Head::Symbol(name.copy(alloc)?)),
        AttrTree::Ints(width, numbers) => {
            let numbers = Items::from_slice(alloc, numbers.as_slice())?;
            Ok(Head::Ints(*width, numbers))
        }
        AttrTree::Dialect(name, words) => {
            let name = name.copy(alloc)?;
            let words = kept_names(alloc, words.as_slice())?;
            Ok(Head::Dialect(name, words))
        }
    }
}
