//! The rows by their forms: rows that differ in names alone are one.

ghost use Rattle.std.specs.Prelude.{◌≡◌, IfOk, Some, [], ◌∷◌, map, option_copied, option_map};
ghost use Rattle.plain_tree.specs.Types.{plain_type};
ghost use Rattle.conversion_model.specs.Types.{becomes};
ghost use Rattle.plain_tree.specs.Attrs.{plain_attr, plain_entries};
ghost use Rattle.pattern_model.specs.ArithRows.{all_types, binary_row, cmpi_row, constant_props as new_constant, constant_row, extended_row, extreme_row, extreme_types, flagged_row, one_value as value_row, select_row, trunci_row};
ghost use Rattle.row_code.specs.Shapes.{shape_of, tree_or_none};

use conversion_model::{Source, TemplateTree};
use row_code::{
    Line, Makes, Props, ShapeTree, constant_value, drafted, find, flag_props, is_plain, kept_props,
    one_value,
};
use sqlite_items::Items;
use std::alloc::Global;
use tree_model::{AttrTree, DictTree, NoMemory, TypeTree, one};
use type_table::becomes as converted;

static PAIR: [Source; 2] = [Source::Operand(0), Source::Operand(1)];

static CHOICE: [Source; 3] = [Source::Operand(0), Source::Operand(1), Source::Operand(2)];

static LONE: [Source; 1] = [Source::Operand(0)];

static CHOSEN: [Source; 3] = [Source::Made(0), Source::Operand(0), Source::Operand(1)];

// One operation whose value has the converted type.
#[tactic(auto, using(crate::proofs::FormLaws::one_is))]
fn single(
    alloc: Global,
    name: &[u8],
    sources: &[Source],
    props: DictTree,
    bits: u32,
    t: &TypeTree,
) -> Result<TemplateTree, NoMemory>
    ensures { IfOk result (λ o. Some o ≡ tree_or_none (value_row name.now sources.now (Some (plain_entries props)) (becomes bits (plain_type t.now) ∷ []))) }
{
    let t = converted(alloc, bits, t)?;
    let step = one_value(alloc, name, sources, props, t)?;
    let steps = one(alloc, step)?;
    let results = one(alloc, Source::Made(0))?;
    Ok(TemplateTree { steps, results })
}

/// One operation whose value is the one result.
fn one_result(
    alloc: Global,
    name: &[u8],
    sources: &[Source],
    props: DictTree,
    bits: u32,
    shape: &ShapeTree,
) -> Result<Option<TemplateTree>, NoMemory>
    ensures { IfOk result (λ o. o ≡ tree_or_none (value_row name.now sources.now (Some (plain_entries props)) (all_types bits (map plain_type shape.now.results)))) }
{
    let [t] = shape.results.as_slice() else {
        return Ok(None);
    };
    let template = single(alloc, name, sources, props, bits, t)?;
    Ok(Some(template))
}

// The integer in its converted type.
#[tactic(auto, using(row_code::proofs::Opens::attr_opens))]
fn constant_props(alloc: Global, bits: u32, value: &AttrTree) -> Result<Option<DictTree>, NoMemory>
    ensures { IfOk result (λ o. option_map plain_entries o ≡ new_constant bits (Some (plain_attr value.now))) }
{
    match value {
        AttrTree::Int(number, t) => {
            let t = converted(alloc, bits, t)?;
            let props = constant_value(alloc, t, *number)?;
            Ok(Some(props))
        }
        AttrTree::Unit
        | AttrTree::Str(_)
        | AttrTree::List(_)
        | AttrTree::Dict(_)
        | AttrTree::OfType(_)
        | AttrTree::Symbol(_)
        | AttrTree::Ints(_, _)
        | AttrTree::Dialect(_, _) => Ok(None),
    }
}

pub fn constant(
    alloc: Global,
    bits: u32,
    shape: &ShapeTree,
) -> Result<Option<TemplateTree>, NoMemory>
    ensures { IfOk result (λ o. o ≡ tree_or_none (constant_row bits (shape_of shape.now))) }
{
    if !is_plain(0, 1, shape) {
        return Ok(None);
    }
    let Some(value) = find(b"value", shape.props.as_slice()) else {
        return Ok(None);
    };
    let Some(props) = constant_props(alloc, bits, value)? else {
        return Ok(None);
    };
    one_result(alloc, b"llvm.mlir.constant", &[], props, bits, shape)
}

/// Two operands and no properties.
pub fn binary(
    alloc: Global,
    name: &[u8],
    bits: u32,
    shape: &ShapeTree,
) -> Result<Option<TemplateTree>, NoMemory>
    ensures { IfOk result (λ o. o ≡ tree_or_none (binary_row name.now bits (shape_of shape.now))) }
{
    if !is_plain(2, 1, shape) {
        return Ok(None);
    }
    one_result(alloc, name, &PAIR, Items::new(alloc), bits, shape)
}

/// Two operands, with flags.
pub fn flagged(
    alloc: Global,
    name: &[u8],
    bits: u32,
    shape: &ShapeTree,
) -> Result<Option<TemplateTree>, NoMemory>
    ensures { IfOk result (λ o. o ≡ tree_or_none (flagged_row name.now bits (shape_of shape.now))) }
{
    if !is_plain(2, 1, shape) {
        return Ok(None);
    }
    let flags = find(b"overflowFlags", shape.props.as_slice());
    let Some(props) = flag_props(alloc, flags)? else {
        return Ok(None);
    };
    one_result(alloc, name, &PAIR, props, bits, shape)
}

pub fn compare(
    alloc: Global,
    bits: u32,
    shape: &ShapeTree,
) -> Result<Option<TemplateTree>, NoMemory>
    ensures { IfOk result (λ o. o ≡ tree_or_none (cmpi_row bits (shape_of shape.now))) }
{
    if !is_plain(2, 1, shape) {
        return Ok(None);
    }
    let predicate = find(b"predicate", shape.props.as_slice());
    let Some(props) = kept_props(alloc, b"predicate", predicate)? else {
        return Ok(None);
    };
    one_result(alloc, b"llvm.icmp", &PAIR, props, bits, shape)
}

pub fn select(alloc: Global, bits: u32, shape: &ShapeTree) -> Result<Option<TemplateTree>, NoMemory>
    ensures { IfOk result (λ o. o ≡ tree_or_none (select_row bits (shape_of shape.now))) }
{
    if !is_plain(3, 1, shape) {
        return Ok(None);
    }
    one_result(
        alloc,
        b"llvm.select",
        &CHOICE,
        Items::new(alloc),
        bits,
        shape,
    )
}

/// One operand and no properties.
pub fn extended(
    alloc: Global,
    name: &[u8],
    bits: u32,
    shape: &ShapeTree,
) -> Result<Option<TemplateTree>, NoMemory>
    ensures { IfOk result (λ o. o ≡ tree_or_none (extended_row name.now bits (shape_of shape.now))) }
{
    if !is_plain(1, 1, shape) {
        return Ok(None);
    }
    one_result(alloc, name, &LONE, Items::new(alloc), bits, shape)
}

/// One operand, with flags.
pub fn truncated(
    alloc: Global,
    bits: u32,
    shape: &ShapeTree,
) -> Result<Option<TemplateTree>, NoMemory>
    ensures { IfOk result (λ o. o ≡ tree_or_none (trunci_row bits (shape_of shape.now))) }
{
    if !is_plain(1, 1, shape) {
        return Ok(None);
    }
    let flags = find(b"overflowFlags", shape.props.as_slice());
    let Some(props) = flag_props(alloc, flags)? else {
        return Ok(None);
    };
    one_result(alloc, b"llvm.trunc", &LONE, props, bits, shape)
}

#[tactic(auto, using(crate::proofs::FormLaws::one_is))]
fn extreme_template(
    alloc: Global,
    predicate: u32,
    bits: u32,
    t: &TypeTree,
) -> Result<TemplateTree, NoMemory>
    ensures { IfOk result (λ o. Some o ≡ tree_or_none (extreme_types predicate (becomes bits (plain_type t.now) ∷ []))) }
{
    let t = converted(alloc, bits, t)?;
    let lines = [
        Line {
            name: b"llvm.icmp",
            sources: &PAIR,
            props: Props::Predicate(predicate),
            makes: Makes::Bit,
        },
        Line {
            name: b"llvm.select",
            sources: &CHOSEN,
            props: Props::Nothing,
            makes: Makes::Same,
        },
    ];
    let template = drafted(alloc, &lines, &t)?;
    Ok(template)
}

/// A comparison by that predicate, and a choice by it.
pub fn extreme(
    alloc: Global,
    predicate: u32,
    bits: u32,
    shape: &ShapeTree,
) -> Result<Option<TemplateTree>, NoMemory>
    ensures { IfOk result (λ o. o ≡ tree_or_none (extreme_row predicate bits (shape_of shape.now))) }
{
    if !is_plain(2, 1, shape) {
        return Ok(None);
    }
    let [t] = shape.results.as_slice() else {
        return Ok(None);
    };
    let template = extreme_template(alloc, predicate, bits, t)?;
    Ok(Some(template))
}
