//! Allocations.

ghost use Rattle.std.specs.Prelude.{◌≡◌, ◌+◌, IfOk, length, map, option_map, option_copied, Some};
ghost use Rattle.plain_tree.specs.Types.{plain_type};
ghost use Rattle.plain_tree.specs.Attrs.{plain_attr};
ghost use Rattle.conversion_model.specs.Types.{descriptor};
ghost use Rattle.pattern_model.specs.Drafts.{draft};
ghost use Rattle.pattern_model.specs.MemrefRows.{aligned_alloc_row, aligned_call, alloc_row, allocated as allocated_draft, allocated_as as allocated_row, dynamic_count as dynamic, with_alignment as aligned_row};
ghost use Rattle.row_code.specs.Shapes.{shape_of, tree_or_none};
ghost use Rattle.memref_rows.specs.Parts.{call_by};
ghost use Rattle.memref_rows.specs.Rows.{dynamic_one as one_if_dynamic};

use crate::calls::{Allocator, allocate};
use crate::descriptor::describe;
use crate::layout::measure;
use crate::sizes::has_results;
use conversion_model::TemplateTree;
use row_code::{ShapeTree, find};
use row_drafts::{Buffer, Writer, memref_buffer};
use std::alloc::Global;
use tree_model::{AttrTree, Dim, NoMemory, TypeTree, one};
use type_table::becomes as converted;

// The whole template, with the descriptor in that type.
fn allocated(
    alloc: Global,
    bits: u32,
    by: Allocator,
    of: Buffer<'_>,
    t: &TypeTree,
) -> Result<TemplateTree, NoMemory>
    requires { plain_type t.now ≡ descriptor bits (length of.dims.now) }
    ensures { IfOk result (λ o. Some o ≡ tree_or_none (draft (allocated_draft bits (call_by by bits) of.entry.dims.now (plain_type of.entry.element.now)))) }
{
    let mut writer = Writer::new(alloc);
    let layout = measure(&mut writer, alloc, bits, of)?;
    let pointer = allocate(&mut writer, alloc, bits, by, layout.bytes)?;
    let made = describe(&mut writer, alloc, bits, t, &layout, pointer)?;
    let results = one(alloc, made)?;
    Ok(writer.finish(results))
}

// 1 of a dimension that isn't fixed.
fn dynamic_one(dim: &Dim) -> usize
    ensures { result ≡ one_if_dynamic dim.now }
{
    match dim {
        Dim::Fixed(_) => 0,
        Dim::Dynamic => 1,
    }
}

fn dynamic_count(dims: &[Dim]) -> usize
    ensures { result ≡ dynamic dims.now }
{
    let mut count = 0;
    'each: for dim in dims {
        count += dynamic_one(dim);
    }
    count
}

/// Of a memref, where there is an operand for each dimension that isn't fixed.
fn allocated_as(
    alloc: Global,
    bits: u32,
    by: Allocator,
    operands: usize,
    results: &[TypeTree],
) -> Result<Option<TemplateTree>, NoMemory>
    ensures { IfOk result (λ o. o ≡ tree_or_none (allocated_row bits (call_by by bits) operands (map plain_type results.now))) }
{
    let [t] = results else {
        return Ok(None);
    };
    let Some(of) = memref_buffer(t) else {
        return Ok(None);
    };
    if dynamic_count(of.dims) != operands {
        return Ok(None);
    }
    let t = converted(alloc, bits, t)?;
    let template = allocated(alloc, bits, by, of, &t)?;
    Ok(Some(template))
}

/// Without alignment.
pub fn alloc(alloc: Global, bits: u32, shape: &ShapeTree) -> Result<Option<TemplateTree>, NoMemory>
    ensures { IfOk result (λ o. o ≡ tree_or_none (alloc_row bits (shape_of shape.now))) }
{
    if !has_results(1, shape) {
        return Ok(None);
    }
    let None = find(b"alignment", shape.props.as_slice()) else {
        return Ok(None);
    };
    allocated_as(
        alloc,
        bits,
        Allocator::Malloc,
        shape.operands.len(),
        shape.results.as_slice(),
    )
}

fn aligned_by(
    alloc: Global,
    bits: u32,
    alignment: i64,
    shape: &ShapeTree,
) -> Result<Option<TemplateTree>, NoMemory>
    ensures { IfOk result (λ o. o ≡ tree_or_none (allocated_row bits (aligned_call bits alignment) (length (shape_of shape.now).operands) (shape_of shape.now).results)) }
{
    let by = Allocator::AlignedAlloc(alignment);
    let operands = shape.operands.len();
    let template = allocated_as(alloc, bits, by, operands, shape.results.as_slice())?;
    Ok(template)
}

#[tactic(auto, using(row_code::proofs::Opens::attr_opens))]
fn with_alignment(
    alloc: Global,
    bits: u32,
    alignment: &AttrTree,
    shape: &ShapeTree,
) -> Result<Option<TemplateTree>, NoMemory>
    ensures { IfOk result (λ o. o ≡ tree_or_none (aligned_row bits (Some (plain_attr alignment.now)) (shape_of shape.now))) }
{
    match alignment {
        AttrTree::Int(number, _) => {
            let template = aligned_by(alloc, bits, *number, shape)?;
            Ok(template)
        }
        AttrTree::Unit
        | AttrTree::Str(_)
        | AttrTree::List(_)
        | AttrTree::Dict(_)
        | AttrTree::OfType(_)
        | AttrTree::Symbol(_)
        | AttrTree::Ints(_, _)
        | AttrTree::Dialect(_, _) => Ok(None),
    }
}

/// With alignment.
pub fn aligned_alloc(
    alloc: Global,
    bits: u32,
    shape: &ShapeTree,
) -> Result<Option<TemplateTree>, NoMemory>
    ensures { IfOk result (λ o. o ≡ tree_or_none (aligned_alloc_row bits (shape_of shape.now))) }
{
    if !has_results(1, shape) {
        return Ok(None);
    }
    let Some(alignment) = find(b"alignment", shape.props.as_slice()) else {
        return Ok(None);
    };
    with_alignment(alloc, bits, alignment, shape)
}
