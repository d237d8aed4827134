//! Terms as types.

ghost use Rattle.std.specs.Prelude.{◌≡◌, ◌≤◌, IfOk, length};
ghost use Rattle.plain_tree.specs.Types.{type_tree, type_trees};
ghost use Rattle.term_table.specs.Terms.{made_of, term_at};
ghost use Rattle.text_types.specs.Plain.{sizes_of, type_of, types_of};

use crate::lists::item;
use sqlite_items::{Boxed, Items};
use std::alloc::{AllocError, Global};
use term_table::{Form, Node, Terms};
use tree_model::{Dim, DimList, TypeList, TypeTree};

/// A width, which no text has above 64.
fn width(value: u64) -> Result<u32, AllocError>
    ensures { IfOk result (λ n. n ≡ value) }
{
    match u32::try_from(value) {
        Ok(width) => Ok(width),
        Err(_) => Err(AllocError),
    }
}

/// The type of a term.
#[cycle(types)]
pub fn type_at(alloc: Global, terms: &Terms, number: u32) -> Result<TypeTree, AllocError>
    requires { number ≤ length terms.now.nodes.keys }
    ensures { IfOk result (λ t. t ≡ type_tree (type_of (term_at terms.now.nodes.keys number))) }
{
    match terms.get(number) {
        Some(node) => type_of(alloc, terms, node),
        None => Ok(TypeTree::Void),
    }
}

#[cycle(types)]
fn type_of(alloc: Global, terms: &Terms, node: Node) -> Result<TypeTree, AllocError>
    requires left { node.left ≤ length terms.now.nodes.keys }
    requires right { node.right ≤ length terms.now.nodes.keys }
    ensures { IfOk result (λ t. t ≡ type_tree (type_of (made_of terms.now.nodes.keys node))) }
{
    match node.form {
        Form::Int => Ok(TypeTree::Int(width(node.value)?)),
        Form::Index => Ok(TypeTree::Index),
        Form::Memref => {
            let sizes = sizes_at(alloc, terms, node.left)?;
            let element = Boxed::new(alloc, type_at(alloc, terms, node.left)?)?;
            Ok(TypeTree::Memref(sizes, element))
        }
        Form::Func => {
            let inputs = types_at(alloc, terms, node.left)?;
            let results = types_at(alloc, terms, node.right)?;
            Ok(TypeTree::Func(inputs, results))
        }
        Form::Ptr => Ok(TypeTree::Ptr),
        Form::Struct => Ok(TypeTree::Struct(types_at(alloc, terms, node.left)?)),
        Form::Array => {
            let element = Boxed::new(alloc, type_at(alloc, terms, node.left)?)?;
            Ok(TypeTree::Array(node.value, element))
        }
        Form::LlvmFunc => {
            let output = Boxed::new(alloc, type_at(alloc, terms, node.left)?)?;
            let inputs = types_at(alloc, terms, node.right)?;
            Ok(TypeTree::LlvmFunc(output, inputs))
        }
        Form::Size | Form::Dynamic => type_at(alloc, terms, node.left),
        _ => Ok(TypeTree::Void),
    }
}

/// The types of a list.
#[cycle(types)]
pub fn types_at(alloc: Global, terms: &Terms, number: u32) -> Result<TypeList, AllocError>
    requires { number ≤ length terms.now.nodes.keys }
    ensures { IfOk result (λ ts. ts ≡ type_trees (types_of (term_at terms.now.nodes.keys number))) }
{
    let mut types = Items::new(alloc);
    let mut rest = number;
    'each: while let Some(first) = item(terms, rest, Form::Types) {
        types.push(type_at(alloc, terms, first.left)?)?;
        rest = first.right;
    }
    Ok(types)
}

/// The sizes before the element of a memref.
fn sizes_at(alloc: Global, terms: &Terms, number: u32) -> Result<DimList, AllocError>
    requires { number ≤ length terms.now.nodes.keys }
    ensures { IfOk result (λ ds. ds ≡ sizes_of (term_at terms.now.nodes.keys number)) }
{
    let mut sizes = Items::new(alloc);
    let mut rest = number;
    'each: while let Some(first) = terms.get(rest) {
        match first.form {
            Form::Size => sizes.push(Dim::Fixed(first.value))?,
            Form::Dynamic => sizes.push(Dim::Dynamic)?,
            _ => return Ok(sizes),
        }
        rest = first.left;
    }
    Ok(sizes)
}
