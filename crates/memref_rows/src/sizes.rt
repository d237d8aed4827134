//! Sizes, ranks, casts, and the end of a buffer.

ghost use Rattle.std.specs.Prelude.{◌≡◌, ◌∷◌, IfOk, Some, [], codes, length, map};
ghost use Rattle.plain_tree.specs.Types.{plain_type, Int};
ghost use Rattle.conversion_model.specs.Types.{number_type};
ghost use Rattle.conversion_model.specs.declared.templates.Source.TheVariants.{Operand};
ghost use Rattle.pattern_model.specs.Drafts.{draft, is_plain as plain, predicate as predicate_props, value};
ghost use Rattle.pattern_model.specs.MemrefRows.{cast_row, dealloc_row, dim_row, rank_row};
ghost use Rattle.row_drafts.specs.Writes.{Writes};
ghost use Rattle.row_code.specs.Shapes.{shape_of, tree_or_none};
ghost use Rattle.memref_rows.specs.Rows.{chosen_size as size_draft, freed_draft, one_choice as choice_part, rank_draft};

use crate::layout::natural;
use conversion_model::{Source, TemplateTree};
use row_code::{ShapeTree, is_plain, predicate};
use row_drafts::{Writer, memref_buffer, symbol_props};
use sqlite_items::Items;
use std::alloc::Global;
use tree_model::{Dim, NoMemory, TypeTree, one};

/// Whether an operation gives so many results, and has neither successors nor regions.
pub fn has_results(results: usize, shape: &ShapeTree) -> bool
    ensures { result ≡ plain (length (shape_of shape.now).operands) results (shape_of shape.now) }
{
    is_plain(shape.operands.len(), results, shape)
}

fn freed(alloc: Global) -> Result<TemplateTree, NoMemory>
    ensures { IfOk result (λ o. Some o ≡ tree_or_none (draft freed_draft)) }
{
    let mut writer = Writer::new(alloc);
    let pointer = writer.extract_pointer(alloc, Source::Operand(0), &[0])?;
    let props = symbol_props(alloc, b"free")?;
    writer.effect(alloc, b"llvm.call", &[pointer], props)?;
    Ok(writer.finish(Items::new(alloc)))
}

pub fn dealloc(
    alloc: Global,
    bits: u32,
    shape: &ShapeTree,
) -> Result<Option<TemplateTree>, NoMemory>
    ensures { IfOk result (λ o. o ≡ tree_or_none (dealloc_row bits (shape_of shape.now))) }
{
    if !is_plain(1, 0, shape) {
        return Ok(None);
    }
    let [t] = shape.operands.as_slice() else {
        return Ok(None);
    };
    if memref_buffer(t).is_none() {
        return Ok(None);
    }
    let template = freed(alloc)?;
    Ok(Some(template))
}

/// Whether the index is that number.
fn is_index(writer: &mut Writer, alloc: Global, number: Source) -> Result<Source, NoMemory>
    ensures { IfOk result (λ s. Writes writer.old writer.new (value (codes "llvm.icmp") (Operand 1 ∷ number ∷ []) (predicate_props 0) (Int 1)) s) }
{
    let props = predicate(alloc, 0)?;
    let sources = [Source::Operand(1), number];
    let bit = writer.value(alloc, b"llvm.icmp", &sources, props, TypeTree::Int(1))?;
    Ok(bit)
}

fn select(
    writer: &mut Writer,
    alloc: Global,
    bits: u32,
    bit: Source,
    size: Source,
    other: Source,
) -> Result<Source, NoMemory>
    ensures { IfOk result (λ s. Writes writer.old writer.new (value (codes "llvm.select") (bit ∷ size ∷ other ∷ []) [] (number_type bits)) s) }
{
    let sources = [bit, size, other];
    let made = writer.value(
        alloc,
        b"llvm.select",
        &sources,
        Items::new(alloc),
        TypeTree::Int(bits),
    )?;
    Ok(made)
}

/// The size at that place where the index is the place, else the other one.
fn one_choice(
    writer: &mut Writer,
    alloc: Global,
    bits: u32,
    place: usize,
    other: Source,
) -> Result<Source, NoMemory>
    ensures { IfOk result (λ s. Writes writer.old writer.new (choice_part bits place other) s) }
{
    let size = writer.extract_number_in(alloc, bits, Source::Operand(0), 3, place)?;
    let number = natural(writer, alloc, bits, place as u64)?;
    let bit = is_index(writer, alloc, number)?;
    let made = select(writer, alloc, bits, bit, size, other)?;
    Ok(made)
}

// The size at the index; the dimensions are those behind the first.
fn chosen_size(alloc: Global, bits: u32, dims: &[Dim]) -> Result<TemplateTree, NoMemory>
    ensures { IfOk result (λ o. Some o ≡ tree_or_none (draft (size_draft bits dims.now))) }
{
    let mut writer = Writer::new(alloc);
    let mut size = writer.extract_number(alloc, bits, Source::Operand(0), &[3, 0])?;
    'each: for place in 0..dims.len() {
        size = one_choice(&mut writer, alloc, bits, place + 1, size)?;
    }
    let results = one(alloc, size)?;
    Ok(writer.finish(results))
}

pub fn dimension(
    alloc: Global,
    bits: u32,
    shape: &ShapeTree,
) -> Result<Option<TemplateTree>, NoMemory>
    ensures { IfOk result (λ o. o ≡ tree_or_none (dim_row bits (shape_of shape.now))) }
{
    if !is_plain(2, 1, shape) {
        return Ok(None);
    }
    let [t, _] = shape.operands.as_slice() else {
        return Ok(None);
    };
    let Some(of) = memref_buffer(t) else {
        return Ok(None);
    };
    let [_, dims @ ..] = of.dims else {
        return Ok(None);
    };
    let template = chosen_size(alloc, bits, dims)?;
    Ok(Some(template))
}

fn rank_number(alloc: Global, bits: u32, rank: usize) -> Result<TemplateTree, NoMemory>
    ensures { IfOk result (λ o. Some o ≡ tree_or_none (draft (rank_draft bits rank))) }
{
    let mut writer = Writer::new(alloc);
    let number = natural(&mut writer, alloc, bits, rank as u64)?;
    let results = one(alloc, number)?;
    Ok(writer.finish(results))
}

pub fn rank(alloc: Global, bits: u32, shape: &ShapeTree) -> Result<Option<TemplateTree>, NoMemory>
    ensures { IfOk result (λ o. o ≡ tree_or_none (rank_row bits (shape_of shape.now))) }
{
    if !is_plain(1, 1, shape) {
        return Ok(None);
    }
    let [t] = shape.operands.as_slice() else {
        return Ok(None);
    };
    let Some(of) = memref_buffer(t) else {
        return Ok(None);
    };
    let template = rank_number(alloc, bits, of.dims.len())?;
    Ok(Some(template))
}

/// The operand itself.
pub fn cast(alloc: Global, bits: u32, shape: &ShapeTree) -> Result<Option<TemplateTree>, NoMemory>
    ensures { IfOk result (λ o. o ≡ tree_or_none (cast_row bits (shape_of shape.now))) }
{
    if !is_plain(1, 1, shape) {
        return Ok(None);
    }
    let ([from], [to]) = (shape.operands.as_slice(), shape.results.as_slice()) else {
        return Ok(None);
    };
    let (Some(from), Some(to)) = (memref_buffer(from), memref_buffer(to)) else {
        return Ok(None);
    };
    if from.dims.len() != to.dims.len() {
        return Ok(None);
    }
    let results = one(alloc, Source::Operand(0))?;
    Ok(Some(TemplateTree {
        steps: Items::new(alloc),
        results,
    }))
}
