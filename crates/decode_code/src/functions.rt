//! Functions as a run sees them.
#![tactic(auto, using(crate::proofs::CodeLayers::layers))]

ghost use Rattle.std.specs.Prelude.{◌≡◌, IfOk, map};
ghost use Rattle.std.specs.Option.{option_map};
ghost use Rattle.form_model.specs.Codes.{OpsEnd};
ghost use Rattle.form_model.specs.Decoding as model;
ghost use Rattle.form_model.specs.Types.{shape_of};
ghost use Rattle.run_code.specs.Views.{blocks_of, face_of, function_of as stands_for_function, functions_of};
ghost use Rattle.decode_code.specs.CodeBy.{region_blocks};
ghost use Rattle.decode_code.specs.Signatures.{typed};

use crate::names::{function_type, symbol_name};
use crate::operations::{Context, decode_blocks};
use crate::signatures::{Signature, signature_of};
use crate::value_types::types_of;
use form_code::{Places, shapes_of, text_of, type_of};
use run_code::{BlockList, Function, Width};
use sqlite_items::Items;
use std::alloc::Global;
use tree_model::{Bytes, FuncTree, ModuleTree, NoMemory, OpTree, RegionTree, TypeTree};

/// The blocks of a function's first region.
fn first_region(
    alloc: Global,
    bits: Width,
    places: &Places<'_>,
    op: &OpTree,
    region: &RegionTree,
) -> Result<BlockList, NoMemory>
    ensures { IfOk result (λ bs. blocks_of bs ≡ region_blocks bits.bits op.now region.now) }
{
    let other = TypeTree::Void;
    let context = Context {
        bits,
        types: types_of(alloc, op)?,
        other: &other,
        places,
    };
    decode_blocks(alloc, &context, region.blocks.as_slice())
}

/// The blocks of a function, none where it is external.
fn body_of(
    alloc: Global,
    bits: Width,
    places: &Places<'_>,
    op: &OpTree,
) -> Result<BlockList, NoMemory>
    ensures { IfOk result (λ bs. blocks_of bs ≡ model.first_blocks (model.code_of bits.bits (model.values_in op.now) op.now OpsEnd)) }
{
    match op.regions.as_slice() {
        [] => Ok(Items::new(alloc)),
        [region, ..] => first_region(alloc, bits, places, op, region),
    }
}

/// The function of this name and signature.
fn function_with(
    alloc: Global,
    bits: Width,
    places: &Places<'_>,
    name: &[u8],
    signature: Signature<'_>,
    op: &OpTree,
) -> Result<Function, NoMemory>
    ensures { IfOk result (λ f. stands_for_function f ≡ record {
      name = name.now;
      face = face_of signature.entry.face;
      shapes = map shape_of signature.entry.inputs.now;
      body = model.first_blocks (model.code_of bits.bits (model.values_in op.now) op.now OpsEnd);
    }) }
{
    let Signature { face, inputs } = signature;
    Ok(Function {
        name: Bytes::from_slice(alloc, name)?,
        face,
        shapes: shapes_of(alloc, inputs)?,
        blocks: body_of(alloc, bits, places, op)?,
    })
}

/// The function of this name and type.
fn function_typed(
    alloc: Global,
    bits: Width,
    places: &Places<'_>,
    name: &[u8],
    t: &TypeTree,
    op: &OpTree,
) -> Result<Option<Function>, NoMemory>
    ensures { IfOk result (λ f. option_map stands_for_function f ≡ typed bits.bits name.now t.now op.now) }
{
    match signature_of(alloc, bits, t)? {
        Some(signature) => {
            let function = function_with(alloc, bits, places, name, signature, op)?;
            Ok(Some(function))
        }
        None => Ok(None),
    }
}

/// A function, where its name and its type stand in its properties.
pub fn function_of(
    alloc: Global,
    bits: Width,
    places: &Places<'_>,
    func: &FuncTree,
) -> Result<Option<Function>, NoMemory>
    ensures { IfOk result (λ f. option_map stands_for_function f ≡ model.function_of bits.bits func.now) }
{
    match text_of(&symbol_name(), func.op.props.as_slice()) {
        Some(name) => match type_of(&function_type(), func.op.props.as_slice()) {
            Some(t) => function_typed(alloc, bits, places, name, t, &func.op),
            None => Ok(None),
        },
        None => Ok(None),
    }
}

/// Where each function is thought to stand among those that are decoded.
fn places_of<'a>(alloc: Global, funcs: &'a [FuncTree]) -> Result<Places<'a>, NoMemory> {
    let mut places = Places::new(alloc);
    let mut place: u32 = 0;
    for func in funcs {
        if let Some(name) = text_of(&symbol_name(), func.op.props.as_slice()) {
            places.note(name, place)?;
            place = place.saturating_add(1);
        }
    }
    Ok(places)
}

fn decode_all(
    alloc: Global,
    bits: Width,
    places: &Places<'_>,
    funcs: &[FuncTree],
) -> Result<Items<Function>, NoMemory>
    ensures { IfOk result (λ fs. functions_of fs ≡ model.functions_from bits.bits funcs.now) }
{
    let mut functions = Items::new(alloc);
    for func in funcs {
        match function_of(alloc, bits, places, func)? {
            Some(function) => functions.push(function)?,
            None => {}
        }
    }
    Ok(functions)
}

/// The functions of a module, where an `index` has so many bits.
pub fn decode(alloc: Global, bits: Width, tree: &ModuleTree) -> Result<Items<Function>, NoMemory>
    ensures { IfOk result (λ fs. functions_of fs ≡ model.functions_of bits.bits tree.now) }
{
    let places = places_of(alloc, tree.funcs.as_slice())?;
    decode_all(alloc, bits, &places, tree.funcs.as_slice())
}
