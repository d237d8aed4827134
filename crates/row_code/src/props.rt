//! Properties of products.

ghost use Rattle.std.specs.Prelude.{◌≡◌, IfOk, option_copied, option_map, Some};
ghost use Rattle.std.specs.Str.{bytes_eq};
ghost use Rattle.plain_tree.specs.Types.{plain_type};
ghost use Rattle.plain_tree.specs.Attrs.{entry as entry_of, plain_attr, plain_entries, Dialect};
ghost use Rattle.pattern_model.specs.ArithRows.{flag_props as new_flags, kept_props as kept};
ghost use Rattle.pattern_model.specs.Drafts.{constant_value as new_value, predicate as new_predicate};
ghost use Rattle.row_code.specs.Shapes.{number_kept};

use crate::wrap::wrapped;
use sqlite_items::Items;
use std::alloc::Global;
use tree_model::{AttrTree, DictTree, Name, NoMemory, TypeTree, copy_attr, copy_names, entry};

fn has_text(name: &Name, text: &[u8]) -> bool
    ensures { result ≡ bytes_eq name.now text.now }
{
    name.as_slice() == text
}

/// The entry of that name.
pub fn find<'a>(name: &[u8], entries: &'a [(Name, AttrTree)]) -> Option<&'a AttrTree>
    ensures { option_map plain_attr (option_copied result) ≡ entry_of name.now (plain_entries entries.now) }
{
    'each: for entry in entries {
        if has_text(&entry.0, name) {
            return Some(&entry.1);
        }
    }
    None
}

#[tactic(auto, using(crate::proofs::Opens::type_opens))]
fn kept_number(t: &TypeTree, number: i64) -> i64
    ensures { result ≡ number_kept (plain_type t.now) number }
{
    match t {
        TypeTree::Int(bits) => wrapped(*bits, number),
        TypeTree::Index
        | TypeTree::Memref(_, _)
        | TypeTree::Func(_, _)
        | TypeTree::Ptr
        | TypeTree::Void
        | TypeTree::Struct(_)
        | TypeTree::Array(_, _)
        | TypeTree::LlvmFunc(_, _) => number,
    }
}

#[tactic(auto, using(crate::proofs::Opens::constant_props))]
/// The property of a constant of that type: of an integer the value in its bits.
pub fn constant_value(alloc: Global, t: TypeTree, number: i64) -> Result<DictTree, NoMemory>
    ensures { IfOk result (λ d. plain_entries d ≡ new_value (plain_type t) number) }
{
    let number = kept_number(&t, number);
    let props = entry(alloc, b"value", AttrTree::Int(number, t))?;
    Ok(props)
}

#[tactic(auto, using(crate::proofs::Opens::attr_opens))]
/// The number of a predicate.
pub fn predicate(alloc: Global, number: u32) -> Result<DictTree, NoMemory>
    ensures { IfOk result (λ d. plain_entries d ≡ new_predicate number) }
{
    entry(
        alloc,
        b"predicate",
        AttrTree::Int(i64::from(number), TypeTree::Int(64)),
    )
}

/// The flags of `#arith.overflow` as those of `#llvm.overflow`, and none where none stand.
pub fn flag_props(alloc: Global, flags: Option<&AttrTree>) -> Result<Option<DictTree>, NoMemory>
    ensures { IfOk result (λ o. option_map plain_entries o ≡ new_flags (option_map plain_attr (option_copied flags.entry))) }
{
    match flags {
        None => Ok(Some(Items::new(alloc))),
        Some(flags) => llvm_flags(alloc, flags),
    }
}

#[tactic(auto, using(crate::proofs::Opens::attr_opens))]
fn llvm_flags(alloc: Global, flags: &AttrTree) -> Result<Option<DictTree>, NoMemory>
    ensures { IfOk result (λ o. option_map plain_entries o ≡ new_flags (Some (plain_attr flags.now))) }
{
    match flags {
        AttrTree::Dialect(name, words) => dialect_flags(alloc, name, words.as_slice()),
        AttrTree::Unit
        | AttrTree::Int(_, _)
        | AttrTree::Str(_)
        | AttrTree::List(_)
        | AttrTree::Dict(_)
        | AttrTree::OfType(_)
        | AttrTree::Symbol(_)
        | AttrTree::Ints(_, _) => Ok(None),
    }
}

#[tactic(auto, using(crate::proofs::Opens::attr_opens))]
fn dialect_flags(alloc: Global, name: &Name, words: &[Name]) -> Result<Option<DictTree>, NoMemory>
    ensures { IfOk result (λ o. option_map plain_entries o ≡ new_flags (Some (Dialect name.now words.now))) }
{
    if !has_text(name, b"arith.overflow") {
        return Ok(None);
    }
    let words = copy_names(alloc, words)?;
    let name = Name::from_slice(alloc, b"llvm.overflow")?;
    let flags = AttrTree::Dialect(name, words);
    let props = entry(alloc, b"overflowFlags", flags)?;
    Ok(Some(props))
}

/// A property that is kept as it is, none where it isn't there.
pub fn kept_props(
    alloc: Global,
    name: &[u8],
    value: Option<&AttrTree>,
) -> Result<Option<DictTree>, NoMemory>
    ensures { IfOk result (λ o. option_map plain_entries o ≡ kept name.now (option_map plain_attr (option_copied value.entry))) }
{
    match value {
        None => Ok(None),
        Some(value) => {
            let value = copy_attr(alloc, value)?;
            let props = entry(alloc, name, value)?;
            Ok(Some(props))
        }
    }
}
