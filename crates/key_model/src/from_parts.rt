//! Makes a key from its outermost level and its parts.
#![tactic(auto)]

ghost use Rattle.std.specs.Prelude.{◌≡◌, IfOk};
ghost use Rattle.std.specs.List.{zip};
ghost use Rattle.key_model.specs.Build.{types_among, attrs_among, first_type, build};
ghost use Rattle.key_model.specs.declared.entry.Head.TheVariants.{TMemref, TFunc, TStruct, TArray, TLlvmFunc, List as ListHead, Dict};
ghost use Rattle.tree_model.specs.declared.attr_tree.AttrTree.{Dialect, Ints};

use crate::entry::Head;
use crate::key::Key;
use sqlite_items::{Boxed, Items};
use std::alloc::Global;
use tree_model::{AttrTree, DictTree, Dim, Name, NoMemory, TypeTree, copy_names};

#[tactic(auto, using(crate::proofs::BuildSteps::build_steps))]
fn types_among(alloc: Global, keys: Vec<Key>) -> Result<Vec<TypeTree>, NoMemory>
    ensures { IfOk result (λ types. types.items ≡ types_among keys.items) }
{
    let mut types = Vec::with_capacity(alloc, keys.len())?;
    for key in keys {
        match key {
            Key::OfType(t) => types.push(t)?,
            Key::OfAttr(_) => {}
        }
    }
    Ok(types)
}

#[tactic(auto, using(crate::proofs::BuildSteps::build_steps))]
fn attrs_among(alloc: Global, keys: Vec<Key>) -> Result<Vec<AttrTree>, NoMemory>
    ensures { IfOk result (λ attrs. attrs.items ≡ attrs_among keys.items) }
{
    let mut attrs = Vec::with_capacity(alloc, keys.len())?;
    for key in keys {
        match key {
            Key::OfType(_) => {}
            Key::OfAttr(a) => attrs.push(a)?,
        }
    }
    Ok(attrs)
}

fn first_type(types: Vec<TypeTree>) -> TypeTree
    ensures { result ≡ first_type types.items }
{
    let mut types = types.into_iter();
    match types.next() {
        Some(t) => t,
        None => TypeTree::Index,
    }
}

#[tactic(auto, using(crate::proofs::BuildSteps::build_steps))]
fn named(alloc: Global, names: &[Name], attrs: Vec<AttrTree>) -> Result<DictTree, NoMemory>
    ensures { IfOk result (λ entries. entries ≡ zip names.now attrs.items) }
{
    let mut entries = Items::from_vec(Vec::with_capacity(alloc, attrs.len())?);
    let mut rest = names;
    for a in attrs {
        if let [name, more @ ..] = rest {
            entries.push((name.copy(alloc)?, a))?;
            rest = more;
        }
    }
    Ok(entries)
}

fn build_func(alloc: Global, inputs: u32, parts: Vec<Key>) -> Result<Key, NoMemory>
    ensures { IfOk result (λ key. key ≡ build (TFunc inputs) parts.items) }
{
    let mut types = types_among(alloc, parts)?;
    let at = types.len().min(inputs as usize);
    let results = types.split_off(at)?;
    Ok(Key::OfType(TypeTree::Func(Items::from_vec(types), Items::from_vec(results))))
}

fn build_llvm_func(alloc: Global, parts: Vec<Key>) -> Result<Key, NoMemory>
    ensures { IfOk result (λ key. key ≡ build TLlvmFunc parts.items) }
{
    let mut types = types_among(alloc, parts)?;
    let at = types.len().min(1);
    let inputs = types.split_off(at)?;
    let output = Boxed::new(alloc, first_type(types))?;
    Ok(Key::OfType(TypeTree::LlvmFunc(output, Items::from_vec(inputs))))
}

fn element(alloc: Global, parts: Vec<Key>) -> Result<TypeTree, NoMemory>
    ensures { IfOk result (λ t. t ≡ first_type (types_among parts.items)) }
{
    Ok(first_type(types_among(alloc, parts)?))
}

fn build_memref(alloc: Global, dims: &[Dim], parts: Vec<Key>) -> Result<Key, NoMemory>
    ensures { IfOk result (λ key. key ≡ build (TMemref dims.now) parts.items) }
{
    let dims = Items::from_slice(alloc, dims)?;
    let element = Boxed::new(alloc, element(alloc, parts)?)?;
    Ok(Key::OfType(TypeTree::Memref(dims, element)))
}

fn build_array(alloc: Global, n: u64, parts: Vec<Key>) -> Result<Key, NoMemory>
    ensures { IfOk result (λ key. key ≡ build (TArray n) parts.items) }
{
    let element = Boxed::new(alloc, element(alloc, parts)?)?;
    Ok(Key::OfType(TypeTree::Array(n, element)))
}

fn build_struct(alloc: Global, parts: Vec<Key>) -> Result<Key, NoMemory>
    ensures { IfOk result (λ key. key ≡ build TStruct parts.items) }
{
    let fields = types_among(alloc, parts)?;
    Ok(Key::OfType(TypeTree::Struct(Items::from_vec(fields))))
}

fn build_list(alloc: Global, parts: Vec<Key>) -> Result<Key, NoMemory>
    ensures { IfOk result (λ key. key ≡ build ListHead parts.items) }
{
    let items = attrs_among(alloc, parts)?;
    Ok(Key::OfAttr(AttrTree::List(Items::from_vec(items))))
}

fn build_dict(alloc: Global, names: &[Name], parts: Vec<Key>) -> Result<Key, NoMemory>
    ensures { IfOk result (λ key. key ≡ build (Dict names.now) parts.items) }
{
    let values = attrs_among(alloc, parts)?;
    Ok(Key::OfAttr(AttrTree::Dict(named(alloc, names, values)?)))
}

fn build_words(alloc: Global, name: &Name, words: &[Name]) -> Result<AttrTree, NoMemory>
    ensures { IfOk result (λ a. a ≡ Dialect name.now words.now) }
{
    let name = name.copy(alloc)?;
    let words = copy_names(alloc, words)?;
    Ok(AttrTree::Dialect(name, words))
}

fn build_ints(alloc: Global, width: u32, numbers: &[i64]) -> Result<AttrTree, NoMemory>
    ensures { IfOk result (λ a. a ≡ Ints width numbers.now) }
{
    Ok(AttrTree::Ints(width, Items::from_slice(alloc, numbers)?))
}

/// The key with this head and these parts, where they fit; else some key.
pub fn build(alloc: Global, head: &Head, parts: Vec<Key>) -> Result<Key, NoMemory>
    ensures { IfOk result (λ key. key ≡ build head.now parts.items) }
{
    match head {
        Head::TInt(width) => Ok(Key::OfType(TypeTree::Int(*width))),
        Head::TIndex => Ok(Key::OfType(TypeTree::Index)),
        Head::TMemref(dims) => build_memref(alloc, dims.as_slice(), parts),
        Head::TFunc(inputs) => build_func(alloc, *inputs, parts),
        Head::TPtr => Ok(Key::OfType(TypeTree::Ptr)),
        Head::TVoid => Ok(Key::OfType(TypeTree::Void)),
        Head::TStruct => build_struct(alloc, parts),
        Head::TArray(n) => build_array(alloc, *n, parts),
        Head::TLlvmFunc => build_llvm_func(alloc, parts),
        Head::Unit => Ok(Key::OfAttr(AttrTree::Unit)),
        Head::Int(value) => Ok(Key::OfAttr(AttrTree::Int(*value, element(alloc, parts)?))),
        Head::Str(text) => Ok(Key::OfAttr(AttrTree::Str(text.copy(alloc)?))),
        Head::List => build_list(alloc, parts),
        Head::Dict(names) => build_dict(alloc, names.as_slice(), parts),
        Head::OfType => Ok(Key::OfAttr(AttrTree::OfType(element(alloc, parts)?))),
        Head::Symbol(name) => Ok(Key::OfAttr(AttrTree::Symbol(name.copy(alloc)?))),
        Head::Ints(width, numbers) => {
            Ok(Key::OfAttr(build_ints(alloc, *width, numbers.as_slice())?))
        }
        Head::Dialect(name, words) => {
            Ok(Key::OfAttr(build_words(alloc, name, words.as_slice())?))
        }
    }
}
