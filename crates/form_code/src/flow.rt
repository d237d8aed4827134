//! The forms of calls, returns, branches and loops.
#![tactic(auto, using(crate::proofs::FormLemmas::forms))]

ghost use Rattle.std.specs.Prelude.{◌≡◌, IfOk, map, codes};
ghost use Rattle.std.specs.Option.{option_map};
ghost use Rattle.std.specs.Str.{bytes_eq};
ghost use Rattle.operation_model.specs.Calling as calling;
ghost use Rattle.operation_model.specs.Forms as forms;
ghost use Rattle.run_code.specs.Views.{form_of, packing_of as stands_for_packing};
ghost use Rattle.form_model.specs.Classes as model;
ghost use Rattle.form_model.specs.Types as types;
ghost use Rattle.form_code.specs.ClassViews.{flow_class};
ghost use Rattle.form_code.specs.SeenViews.{seen_view};

use crate::classes::Flow;
use crate::names::{callee, cases};
use crate::properties::{counts_of, numbers_of, symbol_of};
use crate::recast::recast;
use crate::seen::{Seen, operand_width};
use crate::types::shape_of;
use run_code::{Callee, Form, Packing, ShapeList};
use sqlite_items::Items;
use std::alloc::Global;
use tree_model::{Bytes, NoMemory, TypeTree};

/// How so many results are handed over.
pub fn packing_of(count: usize) -> Packing
    ensures { stands_for_packing result ≡ calling.packing_of count }
{
    if count <= 1 {
        Packing::Bare
    } else {
        Packing::Together
    }
}

/// How the operands are handed over.
fn operand_shapes(alloc: Global, operands: &[&TypeTree]) -> Result<ShapeList, NoMemory>
    ensures { IfOk result (λ shapes. shapes ≡ map types.shape_of (map (λ t. t.now) operands.now)) }
{
    let mut shapes = Items::new(alloc);
    for t in operands {
        shapes.push(shape_of(t))?;
    }
    Ok(shapes)
}

/// The function that is called.
fn callee_of(alloc: Global, name: &[u8], seen: &Seen<'_>) -> Result<Callee, NoMemory>
    ensures { IfOk result (λ f. f.name ≡ name.now) }
{
    Ok(Callee {
        name: Bytes::from_slice(alloc, name)?,
        place: seen.places.place_of(name),
    })
}

fn call_of(alloc: Global, name: &[u8], packing: Packing, seen: &Seen<'_>) -> Result<Form, NoMemory>
    ensures { IfOk result (λ f. form_of f ≡ forms.Call name.now (map types.shape_of (seen_view seen.now).operands) (stands_for_packing packing)) }
{
    let function = callee_of(alloc, name, seen)?;
    let shapes = operand_shapes(alloc, seen.operands)?;
    Ok(Form::Call(function, shapes, packing))
}

fn call(alloc: Global, seen: &Seen<'_>) -> Result<Option<Form>, NoMemory>
    ensures { IfOk result (λ f. option_map form_of f ≡ model.call (seen_view seen.now)) }
{
    match symbol_of(&callee(), seen.props) {
        Some(name) => {
            let form = call_of(alloc, name, packing_of(seen.results.len()), seen)?;
            Ok(Some(form))
        }
        None => Ok(None),
    }
}

fn is_text(name: &[u8], text: &[u8]) -> bool
    ensures { result ≡ bytes_eq name.now text.now }
{
    name == text
}

/// A call of the llvm dialect: `malloc`, `aligned_alloc` and `free` make and end buffers.
fn llvm_call_of(alloc: Global, name: &[u8], seen: &Seen<'_>) -> Result<Form, NoMemory>
    ensures { IfOk result (λ f. form_of f ≡ model.llvm_call_of name.now (seen_view seen.now)) }
{
    if is_text(name, b"malloc") {
        Ok(Form::Allocate)
    } else if is_text(name, b"aligned_alloc") {
        Ok(Form::AllocateAligned)
    } else if is_text(name, b"free") {
        Ok(Form::Free)
    } else {
        call_of(alloc, name, Packing::Bare, seen)
    }
}

fn llvm_call(alloc: Global, seen: &Seen<'_>) -> Result<Option<Form>, NoMemory>
    ensures { IfOk result (λ f. option_map form_of f ≡ model.llvm_call (seen_view seen.now)) }
{
    match symbol_of(&callee(), seen.props) {
        Some(name) => {
            let form = llvm_call_of(alloc, name, seen)?;
            Ok(Some(form))
        }
        None => Ok(None),
    }
}

fn returns(seen: &Seen<'_>) -> Option<Form>
    ensures { option_map form_of result ≡ model.returns (seen_view seen.now) }
{
    Some(Form::Return(packing_of(seen.operands.len())))
}

fn branch_on(seen: &Seen<'_>) -> Option<Form>
    ensures { option_map form_of result ≡ model.branch_on (seen_view seen.now) }
{
    match counts_of(seen.props) {
        Some((first, second)) => Some(Form::BranchOn(first, second)),
        None => None,
    }
}

fn for_loop(seen: &Seen<'_>) -> Option<Form>
    ensures { option_map form_of result ≡ model.for_loop (seen_view seen.now) }
{
    match operand_width(seen, 0) {
        Some(w) => Some(Form::For(w)),
        None => None,
    }
}

fn switch(alloc: Global, seen: &Seen<'_>) -> Result<Option<Form>, NoMemory>
    ensures { IfOk result (λ f. option_map form_of f ≡ model.switch (seen_view seen.now)) }
{
    match numbers_of(&cases(), seen.props) {
        Some(numbers) => {
            let numbers = Items::from_slice(alloc, numbers)?;
            Ok(Some(Form::Switch(seen.bits, numbers)))
        }
        None => Ok(None),
    }
}

/// The form of a call, a return, a branch, a loop or a cast.
pub(crate) fn flow_form(
    alloc: Global,
    class: Flow,
    seen: &Seen<'_>,
) -> Result<Option<Form>, NoMemory>
    ensures { IfOk result (λ f. option_map form_of f ≡ flow_class class (seen_view seen.now)) }
{
    match class {
        Flow::Recast => recast(alloc, seen),
        Flow::Call => call(alloc, seen),
        Flow::LlvmCall => llvm_call(alloc, seen),
        Flow::Returns => Ok(returns(seen)),
        Flow::BranchOn => Ok(branch_on(seen)),
        Flow::For => Ok(for_loop(seen)),
        Flow::Switch => switch(alloc, seen),
    }
}
