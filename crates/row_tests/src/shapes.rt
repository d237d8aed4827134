//! Operations without numbers, as constants, and the shapes that they stand for.

use row_code::ShapeTree;
use sqlite_items::{Boxed, Items};
use std::alloc::Global;
use tree_model::{
    AttrTree, Bytes, DictTree, Dim, Name, NameList, NoMemory, TypeList, TypeTree, ValueList,
};

/// A type of a value.
#[derive(Clone, Copy, Debug)]
pub enum Ty {
    Int(u32),
    Index,
    /// A memref by its dimensions, of integers of this width.
    Memref(&'static [Dim], u32),
}

/// What a property or an attribute says.
#[derive(Clone, Copy, Debug)]
pub enum Note {
    Unit,
    Number(i64, Ty),
    Text(&'static [u8]),
    Symbol(&'static [u8]),
    Function(&'static [Ty], &'static [Ty]),
    Numbers(u32, &'static [i64]),
    Words(&'static [u8], &'static [&'static [u8]]),
}

/// Properties or attributes by their names.
pub type Notes = &'static [(&'static [u8], Note)];

/// An operation, and the place of the row that it is for.
#[derive(Clone, Copy, Debug)]
pub struct Case {
    pub at: u32,
    pub bits: u32,
    pub name: &'static [u8],
    pub operands: &'static [Ty],
    pub results: &'static [Ty],
    pub props: Notes,
    pub attrs: Notes,
    pub successors: u32,
    pub regions: u32,
}

fn memref(alloc: Global, dims: &[Dim], width: u32) -> Result<TypeTree, NoMemory> {
    let dims = Items::from_slice(alloc, dims)?;
    let element = Boxed::new(alloc, TypeTree::Int(width))?;
    Ok(TypeTree::Memref(dims, element))
}

fn type_tree(alloc: Global, ty: Ty) -> Result<TypeTree, NoMemory> {
    match ty {
        Ty::Int(width) => Ok(TypeTree::Int(width)),
        Ty::Index => Ok(TypeTree::Index),
        Ty::Memref(dims, width) => memref(alloc, dims, width),
    }
}

fn types(alloc: Global, list: &[Ty]) -> Result<TypeList, NoMemory> {
    let mut all = Items::new(alloc);
    for ty in list {
        all.push(type_tree(alloc, *ty)?)?;
    }
    Ok(all)
}

/// Values with their types.
pub fn values(alloc: Global, list: &[(u32, Ty)]) -> Result<ValueList, NoMemory> {
    let mut all = Items::new(alloc);
    for (number, ty) in list {
        all.push((*number, type_tree(alloc, *ty)?))?;
    }
    Ok(all)
}

fn names(alloc: Global, words: &[&[u8]]) -> Result<NameList, NoMemory> {
    let mut all = Items::new(alloc);
    for word in words {
        all.push(Name::from_slice(alloc, word)?)?;
    }
    Ok(all)
}

fn function(alloc: Global, inputs: &[Ty], outputs: &[Ty]) -> Result<AttrTree, NoMemory> {
    let inputs = types(alloc, inputs)?;
    let outputs = types(alloc, outputs)?;
    Ok(AttrTree::OfType(TypeTree::Func(inputs, outputs)))
}

fn words_attr(alloc: Global, name: &[u8], words: &[&[u8]]) -> Result<AttrTree, NoMemory> {
    let words = names(alloc, words)?;
    let name = Name::from_slice(alloc, name)?;
    Ok(AttrTree::Dialect(name, words))
}

fn number(alloc: Global, value: i64, ty: Ty) -> Result<AttrTree, NoMemory> {
    let t = type_tree(alloc, ty)?;
    Ok(AttrTree::Int(value, t))
}

fn attr_tree(alloc: Global, note: Note) -> Result<AttrTree, NoMemory> {
    match note {
        Note::Unit => Ok(AttrTree::Unit),
        Note::Number(value, ty) => number(alloc, value, ty),
        Note::Text(text) => Ok(AttrTree::Str(Bytes::from_slice(alloc, text)?)),
        Note::Symbol(name) => Ok(AttrTree::Symbol(Bytes::from_slice(alloc, name)?)),
        Note::Function(inputs, outputs) => function(alloc, inputs, outputs),
        Note::Numbers(width, all) => Ok(AttrTree::Ints(width, Items::from_slice(alloc, all)?)),
        Note::Words(name, words) => words_attr(alloc, name, words),
    }
}

/// A dictionary.
pub fn dict(alloc: Global, notes: &[(&[u8], Note)]) -> Result<DictTree, NoMemory> {
    let mut all = Items::new(alloc);
    for (name, note) in notes {
        let value = attr_tree(alloc, *note)?;
        all.push((Name::from_slice(alloc, name)?, value))?;
    }
    Ok(all)
}

/// The shape of an operation.
pub fn shape(alloc: Global, case: &Case) -> Result<ShapeTree, NoMemory> {
    let operands = types(alloc, case.operands)?;
    let results = types(alloc, case.results)?;
    let props = dict(alloc, case.props)?;
    let attrs = dict(alloc, case.attrs)?;
    Ok(ShapeTree {
        name: Name::from_slice(alloc, case.name)?,
        operands,
        results,
        props,
        attrs,
        successors: case.successors,
        regions: case.regions,
    })
}
