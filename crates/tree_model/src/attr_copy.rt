//! Copies of attributes.

ghost use Rattle.std.specs.Prelude.{◌≡◌, IfOk};

use crate::attr_tree::{AttrList, AttrTree, DictTree, NameList};
use crate::bytes::NoMemory;
use crate::name::Name;
use crate::type_copy::copy_type;
use sqlite_items::Items;
use std::alloc::Global;

/// A copy of an attribute.
#[cycle(copy_attr)]
pub fn copy_attr(alloc: Global, a: &AttrTree) -> Result<AttrTree, NoMemory>
    ensures { IfOk result (λ b. b ≡ a.now) }
{
    match a {
        AttrTree::Unit => Ok(AttrTree::Unit),
        AttrTree::Int(value, t) => Ok(AttrTree::Int(*value, copy_type(alloc, t)?)),
        AttrTree::Str(text) => Ok(AttrTree::Str(text.copy(alloc)?)),
        AttrTree::List(items) => Ok(AttrTree::List(copy_attrs(alloc, items.as_slice())?)),
        AttrTree::Dict(entries) => Ok(AttrTree::Dict(copy_dict(alloc, entries.as_slice())?)),
        AttrTree::OfType(t) => Ok(AttrTree::OfType(copy_type(alloc, t)?)),
        AttrTree::Symbol(name) => Ok(AttrTree::Symbol(name.copy(alloc)?)),
        AttrTree::Ints(width, numbers) => {
            let numbers = Items::from_slice(alloc, numbers.as_slice())?;
            Ok(AttrTree::Ints(*width, numbers))
        }
        AttrTree::Dialect(name, words) => {
            let name = name.copy(alloc)?;
            let words = copy_names(alloc, words.as_slice())?;
            Ok(AttrTree::Dialect(name, words))
        }
    }
}

#[cycle(copy_attr)]
fn copy_attrs(alloc: Global, attrs: &[AttrTree]) -> Result<AttrList, NoMemory>
    ensures { IfOk result (λ copies. copies ≡ attrs.now) }
{
    let mut copies = Items::new(alloc);
    for a in attrs {
        copies.push(copy_attr(alloc, a)?)?;
    }
    Ok(copies)
}

/// Copies of the entries of a dictionary, in order.
#[cycle(copy_attr)]
pub fn copy_dict(alloc: Global, entries: &[(Name, AttrTree)]) -> Result<DictTree, NoMemory>
    ensures { IfOk result (λ copies. copies ≡ entries.now) }
{
    let mut copies = Items::new(alloc);
    for entry in entries {
        let name = entry.0.copy(alloc)?;
        let value = copy_attr(alloc, &entry.1)?;
        copies.push((name, value))?;
    }
    Ok(copies)
}

/// Copies of names, in order.
pub fn copy_names(alloc: Global, names: &[Name]) -> Result<NameList, NoMemory>
    ensures { IfOk result (λ copies. copies ≡ names.now) }
{
    let mut copies = Items::new(alloc);
    for name in names {
        copies.push(name.copy(alloc)?)?;
    }
    Ok(copies)
}
