//! The forms of operations on memrefs, structs and pointers.
#![tactic(auto, using(crate::proofs::FormLemmas::forms))]

ghost use Rattle.std.specs.Prelude.{◌≡◌, IfOk, map};
ghost use Rattle.std.specs.Option.{option_map};
ghost use Rattle.number_model.specs.Numbers as numbers;
ghost use Rattle.operation_model.specs.Forms as forms;
ghost use Rattle.operation_model.specs.Pures as pures;
ghost use Rattle.operation_model.specs.Values as values;
ghost use Rattle.run_code.specs.Views.{form_of};
ghost use Rattle.form_model.specs.Classes as model;
ghost use Rattle.form_model.specs.Types as types;
ghost use Rattle.form_code.specs.ClassViews.{memory_class};
ghost use Rattle.form_code.specs.SeenViews.{seen_view};

use crate::classes::Memory;
use crate::names::element_type;
use crate::properties::{alignment_of, position_of, type_of};
use crate::seen::{Seen, operand_memref, operand_width, result_memref, result_type, result_width};
use crate::types::{fixed_size, sizes_of, unset_of, width_of};
use number_code::unsigned;
use run_code::{Form, Layout, Pure, SizeList, Width};
use sqlite_items::Items;
use std::alloc::Global;
use tree_model::{Dim, NoMemory};
use value_code::Value;

/// The layout of a new memref.
fn layout_of(
    alloc: Global,
    dims: &[Dim],
    element: Width,
    alignment: u64,
    seen: &Seen<'_>,
) -> Result<Form, NoMemory>
    ensures { IfOk result (λ f. form_of f ≡ forms.NewMemref (record {
      bits = seen.now.bits.bits;
      sizes = map types.fixed_size dims.now;
      element = element.bits;
      alignment = alignment;
    })) }
{
    let sizes = sizes_of(alloc, dims)?;
    Ok(Form::NewMemref(Layout {
        bits: seen.bits,
        sizes,
        element,
        alignment,
    }))
}

fn new_memref(alloc: Global, seen: &Seen<'_>) -> Result<Option<Form>, NoMemory>
    ensures { IfOk result (λ f. option_map form_of f ≡ model.new_memref (seen_view seen.now)) }
{
    match result_memref(seen) {
        Some(memref) => match alignment_of(seen.props) {
            Some(alignment) => match width_of(seen.bits, memref.element) {
                Some(element) => {
                    let form = layout_of(alloc, memref.dims, element, alignment, seen)?;
                    Ok(Some(form))
                }
                None => Ok(None),
            },
            None => Ok(None),
        },
        None => Ok(None),
    }
}

fn load_element(seen: &Seen<'_>) -> Option<Form>
    ensures { option_map form_of result ≡ model.load_element (seen_view seen.now) }
{
    match operand_memref(seen, 0) {
        Some(memref) => match width_of(seen.bits, memref.element) {
            Some(w) => Some(Form::LoadElement(seen.bits, w)),
            None => None,
        },
        None => None,
    }
}

fn store_element(seen: &Seen<'_>) -> Option<Form>
    ensures { option_map form_of result ≡ model.store_element (seen_view seen.now) }
{
    match operand_memref(seen, 1) {
        Some(memref) => match width_of(seen.bits, memref.element) {
            Some(w) => Some(Form::StoreElement(seen.bits, w)),
            None => None,
        },
        None => None,
    }
}

fn takes_size(seen: &Seen<'_>) -> Option<Form>
    ensures { option_map form_of result ≡ model.takes_size (seen_view seen.now) }
{
    match operand_memref(seen, 0) {
        Some(memref) => Some(Form::Computes(Pure::TakesSize(seen.bits, memref.dims.len() as u64))),
        None => None,
    }
}

/// A number that is known.
fn known_number(bits: Width, number: u64) -> Form
    ensures { form_of result ≡ forms.Computes (pures.Known (values.Integer (numbers.unsigned bits.bits number))) }
{
    Form::Computes(Pure::Known(Value::Integer(unsigned(bits.bits, number))))
}

fn rank(seen: &Seen<'_>) -> Option<Form>
    ensures { option_map form_of result ≡ model.rank (seen_view seen.now) }
{
    match operand_memref(seen, 0) {
        Some(memref) => Some(known_number(seen.bits, memref.dims.len() as u64)),
        None => None,
    }
}

/// A size that is fixed in either type.
fn either_size(a: Option<u64>, b: Option<u64>) -> Option<u64>
    ensures { result ≡ model.either_size a b }
{
    match a {
        Some(size) => Some(size),
        None => b,
    }
}

/// The sizes that are fixed in either type, for the dimensions that both have.
fn either_sizes(alloc: Global, a: &[Dim], b: &[Dim]) -> Result<SizeList, NoMemory>
    ensures { IfOk result (λ sizes. sizes ≡ model.either_sizes (map types.fixed_size a.now) (map types.fixed_size b.now)) }
{
    let mut sizes = Items::new(alloc);
    for i in 0..a.len().min(b.len()) {
        sizes.push(either_size(fixed_size(a[i]), fixed_size(b[i])))?;
    }
    Ok(sizes)
}

fn memref_cast(alloc: Global, seen: &Seen<'_>) -> Result<Option<Form>, NoMemory>
    ensures { IfOk result (λ f. option_map form_of f ≡ model.memref_cast (seen_view seen.now)) }
{
    match operand_memref(seen, 0) {
        Some(memref) => match result_memref(seen) {
            Some(result) => {
                let sizes = either_sizes(alloc, memref.dims, result.dims)?;
                Ok(Some(Form::Computes(Pure::HasSizes(seen.bits, sizes))))
            }
            None => Ok(None),
        },
        None => Ok(None),
    }
}

fn unset(alloc: Global, seen: &Seen<'_>) -> Result<Option<Form>, NoMemory>
    ensures { IfOk result (λ f. option_map form_of f ≡ model.unset (seen_view seen.now)) }
{
    match result_type(seen) {
        Some(t) => {
            let value = unset_of(alloc, t)?;
            Ok(Some(Form::Computes(Pure::Known(value))))
        }
        None => Ok(None),
    }
}

fn takes_part(alloc: Global, seen: &Seen<'_>) -> Result<Option<Form>, NoMemory>
    ensures { IfOk result (λ f. option_map form_of f ≡ model.takes_part (seen_view seen.now)) }
{
    match position_of(alloc, seen.props)? {
        Some(path) => Ok(Some(Form::Computes(Pure::TakesPart(path)))),
        None => Ok(None),
    }
}

fn puts_part(alloc: Global, seen: &Seen<'_>) -> Result<Option<Form>, NoMemory>
    ensures { IfOk result (λ f. option_map form_of f ≡ model.puts_part (seen_view seen.now)) }
{
    match position_of(alloc, seen.props)? {
        Some(path) => Ok(Some(Form::Computes(Pure::PutsPart(path)))),
        None => Ok(None),
    }
}

fn moves_pointer(seen: &Seen<'_>) -> Option<Form>
    ensures { option_map form_of result ≡ model.moves_pointer (seen_view seen.now) }
{
    match type_of(&element_type(), seen.props) {
        Some(t) => match width_of(seen.bits, t) {
            Some(w) => Some(Form::Computes(Pure::MovesPointer(w))),
            None => None,
        },
        None => None,
    }
}

fn load(seen: &Seen<'_>) -> Option<Form>
    ensures { option_map form_of result ≡ model.load (seen_view seen.now) }
{
    match result_width(seen) {
        Some(w) => Some(Form::Load(w)),
        None => None,
    }
}

fn store(seen: &Seen<'_>) -> Option<Form>
    ensures { option_map form_of result ≡ model.store (seen_view seen.now) }
{
    match operand_width(seen, 0) {
        Some(w) => Some(Form::Store(w)),
        None => None,
    }
}

/// The form of an operation on memrefs, structs and pointers.
pub(crate) fn memory_form(
    alloc: Global,
    class: Memory,
    seen: &Seen<'_>,
) -> Result<Option<Form>, NoMemory>
    ensures { IfOk result (λ f. option_map form_of f ≡ memory_class class (seen_view seen.now)) }
{
    match class {
        Memory::NewMemref => new_memref(alloc, seen),
        Memory::LoadElement => Ok(load_element(seen)),
        Memory::StoreElement => Ok(store_element(seen)),
        Memory::TakesSize => Ok(takes_size(seen)),
        Memory::Rank => Ok(rank(seen)),
        Memory::MemrefCast => memref_cast(alloc, seen),
        Memory::Unset => unset(alloc, seen),
        Memory::TakesPart => takes_part(alloc, seen),
        Memory::PutsPart => puts_part(alloc, seen),
        Memory::MovesPointer => Ok(moves_pointer(seen)),
        Memory::Load => Ok(load(seen)),
        Memory::Store => Ok(store(seen)),
    }
}
