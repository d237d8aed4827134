//! What types tell. An `index` has so many bits as a run says.
#![tactic(auto, using(crate::proofs::TypeLayers::layers))]

ghost use Rattle.std.specs.Prelude.{◌≡◌, IfOk, Option, map, replicate};
ghost use Rattle.std.specs.Option.{option_map};
ghost use Rattle.run_code.specs.Views.{bits_of};
ghost use Rattle.value_code.specs.Models.{value_of, values_of};
ghost use Rattle.form_model.specs.Types as model;
ghost use Rattle.form_code.specs.Views.{bits_in, memref_view};

use run_code::{ShapeList, SizeList, Width, WidthList};
use sqlite_items::Items;
use std::alloc::Global;
use tree_model::{Dim, NoMemory, TypeTree};
use value_code::{Value, ValueList, copy_value};

/// The width of an integer type, or of `index`.
pub fn width_of(bits: Width, t: &TypeTree) -> Option<Width>
    ensures { option_map bits_in result ≡ model.width_of bits.bits t.now }
{
    match t {
        TypeTree::Int(width) => integer_width(*width),
        TypeTree::Index => Some(bits),
        TypeTree::Memref(_, _)
        | TypeTree::Func(_, _)
        | TypeTree::Ptr
        | TypeTree::Void
        | TypeTree::Struct(_)
        | TypeTree::Array(_, _)
        | TypeTree::LlvmFunc(_, _) => None,
    }
}

/// The width of so many bits, where it is one.
fn integer_width(bits: u32) -> Option<Width>
    ensures { option_map bits_in result ≡ model.width bits }
{
    run_code::width_of(bits)
}

/// The widths of types that are all integers or `index`.
pub fn widths_of(
    alloc: Global,
    bits: Width,
    types: &[TypeTree],
) -> Result<Option<WidthList>, NoMemory>
    ensures { IfOk result (λ ws. option_map bits_of ws ≡ model.widths_of bits.bits types.now) }
{
    let mut widths = Items::new(alloc);
    for t in types {
        match width_of(bits, t) {
            Some(width) => widths.push(width)?,
            None => return Ok(None),
        }
    }
    Ok(Some(widths))
}

/// A memref type: its dimensions and the type of its elements.
#[derive(Clone, Copy)]
pub struct Memref<'a> {
    pub dims: &'a [Dim],
    pub element: &'a TypeTree,
}

/// The dimensions and the type of the elements, where the type is a memref.
pub fn memref_of(t: &TypeTree) -> Option<Memref<'_>>
    ensures { option_map memref_view result ≡ model.memref_of t.now }
{
    match t {
        TypeTree::Memref(dims, element) => Some(Memref {
            dims: dims.as_slice(),
            element: element.get(),
        }),
        TypeTree::Int(_)
        | TypeTree::Index
        | TypeTree::Func(_, _)
        | TypeTree::Ptr
        | TypeTree::Void
        | TypeTree::Struct(_)
        | TypeTree::Array(_, _)
        | TypeTree::LlvmFunc(_, _) => None,
    }
}

/// How values of the type are handed over: the rank of a memref.
pub fn shape_of(t: &TypeTree) -> Option<u64>
    ensures { result ≡ model.shape_of t.now }
{
    match memref_of(t) {
        Some(memref) => Some(memref.dims.len() as u64),
        None => None,
    }
}

/// How values of these types are handed over.
pub fn shapes_of(alloc: Global, types: &[TypeTree]) -> Result<ShapeList, NoMemory>
    ensures { IfOk result (λ shapes. shapes ≡ map model.shape_of types.now) }
{
    let mut shapes = Items::new(alloc);
    for t in types {
        shapes.push(shape_of(t))?;
    }
    Ok(shapes)
}

/// The size of a dimension, where it is fixed.
pub(crate) fn fixed_size(dim: Dim) -> Option<u64>
    ensures { result ≡ model.fixed_size dim }
{
    match dim {
        Dim::Fixed(size) => Some(size),
        Dim::Dynamic => None,
    }
}

/// The sizes of dimensions, each where it is fixed.
pub fn sizes_of(alloc: Global, dims: &[Dim]) -> Result<SizeList, NoMemory>
    ensures { IfOk result (λ sizes. sizes ≡ map model.fixed_size dims.now) }
{
    let mut sizes = Items::new(alloc);
    for dim in dims {
        sizes.push(fixed_size(*dim))?;
    }
    Ok(sizes)
}

/// A value of the type that is unset in every part.
#[cycle(unset_of)]
#[tactic(auto, using(crate::proofs::TypeLayers::unset_layers))]
pub fn unset_of(alloc: Global, t: &TypeTree) -> Result<Value, NoMemory>
    ensures { IfOk result (λ v. value_of v ≡ model.unset_of t.now) }
{
    match t {
        TypeTree::Struct(fields) => Ok(Value::Aggregate(all_unset(alloc, fields.as_slice())?)),
        TypeTree::Array(length, element) => {
            let part = unset_of(alloc, element.get())?;
            Ok(Value::Aggregate(copies_of(alloc, &part, *length)?))
        }
        TypeTree::Int(_)
        | TypeTree::Index
        | TypeTree::Memref(_, _)
        | TypeTree::Func(_, _)
        | TypeTree::Ptr
        | TypeTree::Void
        | TypeTree::LlvmFunc(_, _) => Ok(Value::Unset),
    }
}

/// For each type a value that is unset in every part.
#[cycle(unset_of)]
#[tactic(auto, using(crate::proofs::TypeLayers::unset_layers))]
fn all_unset(alloc: Global, types: &[TypeTree]) -> Result<ValueList, NoMemory>
    ensures { IfOk result (λ vs. values_of vs ≡ map model.unset_of types.now) }
{
    let mut parts = Items::new(alloc);
    for t in types {
        parts.push(unset_of(alloc, t)?)?;
    }
    Ok(parts)
}

/// So many copies of a value.
fn copies_of(alloc: Global, part: &Value, count: u64) -> Result<ValueList, NoMemory>
    ensures { IfOk result (λ vs. vs ≡ replicate count part.now) }
{
    let mut parts = Items::new(alloc);
    for copy in 0..count {
        parts.push(copy_value(alloc, part)?)?;
    }
    Ok(parts)
}
