//! Functions.

ghost use Rattle.std.specs.Prelude.{◌≡◌, ◌++◌, ◌∷◌, IfOk, OnOk, Some, [], codes, map, option_copied, option_map};
ghost use Rattle.std.specs.Str.{bytes_eq};
ghost use Rattle.tree_model.specs.declared.attr_tree.AttrTree as attr;
ghost use Rattle.plain_tree.specs.Types.{plain_type};
ghost use Rattle.plain_tree.specs.Attrs.{entries_tree, entry as entry_of, plain_attr};
ghost use Rattle.conversion_model.specs.Types.{signature as llvm_signature};
ghost use Rattle.pattern_model.specs.FuncRows.{frame_by as frame_row_by, func_row, function_props as new_props};
ghost use Rattle.row_code.specs.Shapes.{shape_of};
ghost use Rattle.cut_code.specs.Frames.{frame_or_none};
ghost use Rattle.func_rows.specs.Entries.{fixed_trees, inputs_in, optional_tree, trees_without, type_in, unless_named};

use crate::parts::all_parts;
use crate::signatures::signature;
use cut_code::FrameTree;
use row_code::{ShapeTree, find};
use sqlite_items::Items;
use std::alloc::Global;
use tree_model::{AttrTree, DictTree, Name, NoMemory, TypeTree, copy_attr, entry, one};

#[tactic(auto, using(row_code::proofs::Opens::type_opens))]
fn function_inputs(t: &TypeTree) -> Option<&[TypeTree]>
    ensures { option_map (λ ts. map plain_type ts.now) result ≡ inputs_in (plain_type t.now) }
{
    match t {
        TypeTree::Func(inputs, _) => Some(inputs.as_slice()),
        TypeTree::Int(_)
        | TypeTree::Index
        | TypeTree::Memref(_, _)
        | TypeTree::Ptr
        | TypeTree::Void
        | TypeTree::Struct(_)
        | TypeTree::Array(_, _)
        | TypeTree::LlvmFunc(_, _) => None,
    }
}

#[tactic(auto, using(row_code::proofs::Opens::attr_opens))]
fn type_said(value: &AttrTree) -> Option<&TypeTree>
    ensures { option_map plain_type (option_copied result) ≡ type_in (plain_attr value.now) }
{
    match value {
        AttrTree::OfType(t) => Some(t),
        AttrTree::Unit
        | AttrTree::Int(_, _)
        | AttrTree::Str(_)
        | AttrTree::List(_)
        | AttrTree::Dict(_)
        | AttrTree::Symbol(_)
        | AttrTree::Ints(_, _)
        | AttrTree::Dialect(_, _) => None,
    }
}

fn has_text(name: &Name, text: &[u8]) -> bool
    ensures { result ≡ bytes_eq name.now text.now }
{
    name.as_slice() == text
}

/// The entry behind those that are kept, unless it has that name.
fn keep_unless(
    kept: &mut DictTree,
    alloc: Global,
    name: &[u8],
    entry: &(Name, AttrTree),
) -> Result<(), NoMemory>
    ensures { OnOk result (kept.new ≡ kept.old ++ unless_named name.now entry.now) }
{
    if has_text(&entry.0, name) {
        return Ok(());
    }
    let name = entry.0.copy(alloc)?;
    let value = copy_attr(alloc, &entry.1)?;
    kept.push((name, value))?;
    Ok(())
}

/// The entries but for those of that name.
fn without(alloc: Global, name: &[u8], entries: &[(Name, AttrTree)]) -> Result<DictTree, NoMemory>
    ensures { IfOk result (λ d. d ≡ trees_without name.now entries.now) }
{
    let mut kept = Items::new(alloc);
    'each: for entry in entries {
        keep_unless(&mut kept, alloc, name, entry)?;
    }
    Ok(kept)
}

// The entry at the end, where there is a value.
fn with_optional(
    alloc: Global,
    mut props: DictTree,
    name: &[u8],
    value: Option<&AttrTree>,
) -> Result<DictTree, NoMemory>
    ensures { IfOk result (λ d. d ≡ props ++ optional_tree name.now (option_copied value.entry)) }
{
    if let Some(value) = value {
        let name = Name::from_slice(alloc, name)?;
        let value = copy_attr(alloc, value)?;
        props.push((name, value))?;
        return Ok(props);
    }
    Ok(props)
}

fn external(alloc: Global) -> Result<AttrTree, NoMemory>
    ensures { IfOk result (λ a. a ≡ attr.Dialect (codes "llvm.linkage") (codes "external" ∷ [])) }
{
    let word = Name::from_slice(alloc, b"external")?;
    let words = one(alloc, word)?;
    let name = Name::from_slice(alloc, b"llvm.linkage")?;
    Ok(AttrTree::Dialect(name, words))
}

fn fixed_props(alloc: Global, t: TypeTree, name: &AttrTree) -> Result<DictTree, NoMemory>
    ensures { IfOk result (λ d. d ≡ fixed_trees t name.now) }
{
    let mut props = entry(alloc, b"function_type", AttrTree::OfType(t))?;
    let linkage = external(alloc)?;
    props.push((Name::from_slice(alloc, b"linkage")?, linkage))?;
    let name = copy_attr(alloc, name)?;
    props.push((Name::from_slice(alloc, b"sym_name")?, name))?;
    Ok(props)
}

/// The properties of a function of that type.
#[tactic(auto, using(crate::proofs::EntryLaws::props_are))]
fn function_props(
    alloc: Global,
    t: TypeTree,
    name: &AttrTree,
    visibility: Option<&AttrTree>,
) -> Result<DictTree, NoMemory>
    ensures { IfOk result (λ d. d ≡ entries_tree (new_props (plain_type t) (plain_attr name.now) (option_map plain_attr (option_copied visibility.entry)))) }
{
    let fixed = fixed_props(alloc, t, name)?;
    let props = with_optional(alloc, fixed, b"sym_visibility", visibility)?;
    Ok(props)
}

fn framed(
    alloc: Global,
    bits: u32,
    shape: &ShapeTree,
    t: TypeTree,
    inputs: &[TypeTree],
    name: &AttrTree,
) -> Result<FrameTree, NoMemory>
    ensures { IfOk result (λ f. Some f ≡ frame_or_none (frame_row_by bits (shape_of shape.now) (map plain_type inputs.now) (Some (plain_type t)) (Some (plain_attr name.now)))) }
{
    let visibility = find(b"sym_visibility", shape.props.as_slice());
    let props = function_props(alloc, t, name, visibility)?;
    let attrs = without(alloc, b"linkage", shape.attrs.as_slice())?;
    let entry = all_parts(alloc, bits, inputs)?;
    let name = Name::from_slice(alloc, b"llvm.func")?;
    Ok(FrameTree {
        name,
        props,
        attrs,
        entry,
    })
}

fn frame_by(
    alloc: Global,
    bits: u32,
    shape: &ShapeTree,
    t: &TypeTree,
    inputs: &[TypeTree],
) -> Result<Option<FrameTree>, NoMemory>
    ensures { IfOk result (λ o. o ≡ frame_or_none (frame_row_by bits (shape_of shape.now) (map plain_type inputs.now) (llvm_signature bits (plain_type t.now)) (entry_of (codes "sym_name") (shape_of shape.now).props))) }
{
    let Some(made) = signature(alloc, bits, t)? else {
        return Ok(None);
    };
    let Some(name) = find(b"sym_name", shape.props.as_slice()) else {
        return Ok(None);
    };
    let frame = framed(alloc, bits, shape, made, inputs, name)?;
    Ok(Some(frame))
}

/// A function of the llvm dialect. It keeps its attributes, but one named as a new property.
pub fn function(alloc: Global, bits: u32, shape: &ShapeTree) -> Result<Option<FrameTree>, NoMemory>
    ensures { IfOk result (λ o. o ≡ frame_or_none (func_row bits (shape_of shape.now))) }
{
    let Some(value) = find(b"function_type", shape.props.as_slice()) else {
        return Ok(None);
    };
    let Some(t) = type_said(value) else {
        return Ok(None);
    };
    let Some(inputs) = function_inputs(t) else {
        return Ok(None);
    };
    let frame = frame_by(alloc, bits, shape, t, inputs)?;
    Ok(frame)
}
