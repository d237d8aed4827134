//! What functions show, and how their arguments are handed over.
#![tactic(auto, using(crate::proofs::TypeLayers::layers))]

ghost use Rattle.std.specs.Prelude.{◌≡◌, IfOk, [], ◌∷◌, length};
ghost use Rattle.std.specs.Option.{option_map};
ghost use Rattle.tree_model.specs.declared.type_tree.TypeTree.{out-TypeTree};
ghost use Rattle.operation_model.specs.Calling as calling;
ghost use Rattle.run_code.specs.Views.{bits_of, face_of, packing_of as stands_for_packing};
ghost use Rattle.form_model.specs.Decoding as model;
ghost use Rattle.form_model.specs.Types as types;
ghost use Rattle.decode_code.specs.Signatures.{func_face, llvm_face, signature_view};

use form_code::{packing_of, width_of, widths_of};
use run_code::{Face, Packing, Width, WidthList};
use sqlite_items::Items;
use std::alloc::Global;
use tree_model::{NoMemory, TypeTree};

/// What a function shows, and the types of its parameters.
#[derive(Drop)]
pub struct Signature<'a> {
    pub face: Face,
    pub inputs: &'a [TypeTree],
}

/// The width of one type.
fn one_width(alloc: Global, bits: Width, t: &TypeTree) -> Result<Option<WidthList>, NoMemory>
    ensures { IfOk result (λ ws. option_map bits_of ws ≡ types.widths_of bits.bits (t.now ∷ [])) }
{
    match width_of(bits, t) {
        Some(w) => {
            let mut widths = Items::new(alloc);
            widths.push(w)?;
            Ok(Some(widths))
        }
        None => Ok(None),
    }
}

/// What a function of the llvm dialect with this result shows.
fn llvm_outputs(alloc: Global, bits: Width, t: &TypeTree) -> Result<Option<WidthList>, NoMemory>
    ensures { IfOk result (λ ws. option_map bits_of ws ≡ model.llvm_outputs_at bits.bits t.now (out-TypeTree t.now)) }
{
    match t {
        TypeTree::Void => Ok(Some(Items::new(alloc))),
        TypeTree::Struct(fields) => widths_of(alloc, bits, fields.as_slice()),
        TypeTree::Int(_)
        | TypeTree::Index
        | TypeTree::Memref(_, _)
        | TypeTree::Func(_, _)
        | TypeTree::Ptr
        | TypeTree::Array(_, _)
        | TypeTree::LlvmFunc(_, _) => one_width(alloc, bits, t),
    }
}

fn llvm_packing(t: &TypeTree) -> Packing
    ensures { stands_for_packing result ≡ model.llvm_packing_at (out-TypeTree t.now) }
{
    match t {
        TypeTree::Struct(_) => Packing::Together,
        TypeTree::Int(_)
        | TypeTree::Index
        | TypeTree::Memref(_, _)
        | TypeTree::Func(_, _)
        | TypeTree::Ptr
        | TypeTree::Void
        | TypeTree::Array(_, _)
        | TypeTree::LlvmFunc(_, _) => Packing::Bare,
    }
}

/// What a function with these parameters and results shows.
fn face_between(
    alloc: Global,
    bits: Width,
    inputs: &[TypeTree],
    results: &[TypeTree],
) -> Result<Face, NoMemory>
    ensures { IfOk result (λ f. face_of f ≡ func_face bits.bits inputs.now results.now) }
{
    let inputs = widths_of(alloc, bits, inputs)?;
    let outputs = widths_of(alloc, bits, results)?;
    Ok(Face {
        inputs,
        outputs,
        packing: packing_of(results.len()),
    })
}

/// What a function of the llvm dialect with these parameters and this result shows.
fn face_with(
    alloc: Global,
    bits: Width,
    output: &TypeTree,
    inputs: &[TypeTree],
) -> Result<Face, NoMemory>
    ensures { IfOk result (λ f. face_of f ≡ llvm_face bits.bits output.now inputs.now) }
{
    let inputs = widths_of(alloc, bits, inputs)?;
    let outputs = llvm_outputs(alloc, bits, output)?;
    Ok(Face {
        inputs,
        outputs,
        packing: llvm_packing(output),
    })
}

/// What a function of this type shows, where it is the type of a function.
pub fn signature_of(
    alloc: Global,
    bits: Width,
    t: &TypeTree,
) -> Result<Option<Signature<'_>>, NoMemory>
    ensures { IfOk result (λ s. option_map signature_view s ≡ model.signature_at bits.bits (out-TypeTree t.now)) }
{
    match t {
        TypeTree::Func(inputs, results) => {
            let inputs = inputs.as_slice();
            let face = face_between(alloc, bits, inputs, results.as_slice())?;
            Ok(Some(Signature { face, inputs }))
        }
        TypeTree::LlvmFunc(output, inputs) => {
            let inputs = inputs.as_slice();
            let face = face_with(alloc, bits, output.get(), inputs)?;
            Ok(Some(Signature { face, inputs }))
        }
        TypeTree::Int(_)
        | TypeTree::Index
        | TypeTree::Memref(_, _)
        | TypeTree::Ptr
        | TypeTree::Void
        | TypeTree::Struct(_)
        | TypeTree::Array(_, _) => Ok(None),
    }
}
