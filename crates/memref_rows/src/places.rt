//! Loads and stores.

ghost use Rattle.std.specs.Prelude.{◌≡◌, ◌+◌, ◌∷◌, IfOk, Some, [], codes, length, map};
ghost use Rattle.plain_tree.specs.Types.{plain_type, Ptr};
ghost use Rattle.plain_tree.specs.Attrs.{plain_entries};
ghost use Rattle.conversion_model.specs.Types.{becomes};
ghost use Rattle.pattern_model.specs.Drafts.{draft, value};
ghost use Rattle.pattern_model.specs.MemrefRows.{load_by as load_row_by, load_row, offset_of, place_of, store_by as store_row_by, store_row};
ghost use Rattle.row_drafts.specs.Writes.{Writes};
ghost use Rattle.row_code.specs.Shapes.{shape_of, tree_or_none};
ghost use Rattle.memref_rows.specs.Rows.{loaded, one_offset as offset_part, place_props as props_of, stored};

use crate::calls::widened;
use crate::sizes::has_results;
use conversion_model::{Source, TemplateTree};
use row_code::ShapeTree;
use row_drafts::{Buffer, Writer, memref_buffer};
use sqlite_items::Items;
use std::alloc::{AllocError, Global};
use tree_model::{AttrTree, DictTree, Dim, Name, NoMemory, TypeTree, entry, one};
use type_table::becomes as converted;

/// The offset so far plus an index times its stride.
fn one_offset(
    writer: &mut Writer,
    alloc: Global,
    bits: u32,
    from: Source,
    operand: u32,
    place: usize,
    offset: Source,
) -> Result<Source, NoMemory>
    ensures { IfOk result (λ s. Writes writer.old writer.new (offset_part bits from operand place offset) s) }
{
    let stride = writer.extract_number_in(alloc, bits, from, 4, place)?;
    let index = Source::Operand(operand);
    let product = writer.arithmetic(alloc, bits, b"llvm.mul", index, stride)?;
    let sum = writer.arithmetic(alloc, bits, b"llvm.add", offset, product)?;
    Ok(sum)
}

fn behind(operand: u32) -> Result<u32, NoMemory>
    ensures { IfOk result (λ k. k ≡ operand + 1) }
{
    match operand.checked_add(1) {
        Some(next) => Ok(next),
        None => Err(AllocError),
    }
}

/// The offset plus each index, an operand from the first on, times its stride.
fn whole_offset(
    writer: &mut Writer,
    alloc: Global,
    bits: u32,
    from: Source,
    first: u32,
    dims: &[Dim],
    start: Source,
) -> Result<Source, NoMemory>
    ensures { IfOk result (λ s. Writes writer.old writer.new (offset_of bits from first 0 dims.now start) s) }
{
    let mut operand = first;
    let mut offset = start;
    'each: for place in 0..dims.len() {
        offset = one_offset(writer, alloc, bits, from, operand, place, offset)?;
        operand = behind(operand)?;
    }
    Ok(offset)
}

#[tactic(auto, using(row_code::proofs::Opens::attr_opens))]
fn place_props(alloc: Global, t: TypeTree) -> Result<DictTree, NoMemory>
    ensures { IfOk result (λ d. plain_entries d ≡ props_of (plain_type t)) }
{
    let mut props = entry(alloc, b"elem_type", AttrTree::OfType(t))?;
    let name = Name::from_slice(alloc, b"rawConstantIndices")?;
    let indices = one(alloc, -2147483648)?;
    props.push((name, AttrTree::Ints(32, indices)))?;
    Ok(props)
}

// The element at that offset from a pointer on.
fn element_at(
    writer: &mut Writer,
    alloc: Global,
    bits: u32,
    pointer: Source,
    offset: Source,
    element: &TypeTree,
) -> Result<Source, NoMemory>
    ensures { IfOk result (λ s. Writes writer.old writer.new (value (codes "llvm.getelementptr") (pointer ∷ offset ∷ []) (props_of (becomes bits (plain_type element.now))) Ptr) s) }
{
    let t = converted(alloc, bits, element)?;
    let props = place_props(alloc, t)?;
    let sources = [pointer, offset];
    let place = writer.value(alloc, b"llvm.getelementptr", &sources, props, TypeTree::Ptr)?;
    Ok(place)
}

/// The place of an element, with the indices as operands from the first on.
fn element_place(
    writer: &mut Writer,
    alloc: Global,
    bits: u32,
    from: Source,
    first: u32,
    of: Buffer<'_>,
) -> Result<Source, NoMemory>
    ensures { IfOk result (λ s. Writes writer.old writer.new (place_of bits from first of.entry.dims.now (plain_type of.entry.element.now)) s) }
{
    let pointer = writer.extract_pointer(alloc, from, &[1])?;
    let start = writer.extract_number(alloc, bits, from, &[2])?;
    let offset = whole_offset(writer, alloc, bits, from, first, of.dims, start)?;
    let wide = widened(writer, alloc, b"llvm.sext", bits, offset)?;
    let place = element_at(writer, alloc, bits, pointer, wide, of.element)?;
    Ok(place)
}

fn load_from(alloc: Global, bits: u32, of: Buffer<'_>) -> Result<TemplateTree, NoMemory>
    ensures { IfOk result (λ o. Some o ≡ tree_or_none (draft (loaded bits of.entry.dims.now (plain_type of.entry.element.now)))) }
{
    let mut writer = Writer::new(alloc);
    let place = element_place(&mut writer, alloc, bits, Source::Operand(0), 1, of)?;
    let t = converted(alloc, bits, of.element)?;
    let value = writer.value(alloc, b"llvm.load", &[place], Items::new(alloc), t)?;
    let results = one(alloc, value)?;
    Ok(writer.finish(results))
}

fn load_by(
    alloc: Global,
    bits: u32,
    operands: &[TypeTree],
) -> Result<Option<TemplateTree>, NoMemory>
    ensures { IfOk result (λ o. o ≡ tree_or_none (load_row_by bits (map plain_type operands.now))) }
{
    let [t, indices @ ..] = operands else {
        return Ok(None);
    };
    let Some(of) = memref_buffer(t) else {
        return Ok(None);
    };
    if indices.len() != of.dims.len() {
        return Ok(None);
    }
    let template = load_from(alloc, bits, of)?;
    Ok(Some(template))
}

pub fn load(alloc: Global, bits: u32, shape: &ShapeTree) -> Result<Option<TemplateTree>, NoMemory>
    ensures { IfOk result (λ o. o ≡ tree_or_none (load_row bits (shape_of shape.now))) }
{
    if !has_results(1, shape) {
        return Ok(None);
    }
    load_by(alloc, bits, shape.operands.as_slice())
}

fn store_to(alloc: Global, bits: u32, of: Buffer<'_>) -> Result<TemplateTree, NoMemory>
    ensures { IfOk result (λ o. Some o ≡ tree_or_none (draft (stored bits of.entry.dims.now (plain_type of.entry.element.now)))) }
{
    let mut writer = Writer::new(alloc);
    let place = element_place(&mut writer, alloc, bits, Source::Operand(1), 2, of)?;
    let sources = [Source::Operand(0), place];
    writer.effect(alloc, b"llvm.store", &sources, Items::new(alloc))?;
    Ok(writer.finish(Items::new(alloc)))
}

fn store_by(
    alloc: Global,
    bits: u32,
    operands: &[TypeTree],
) -> Result<Option<TemplateTree>, NoMemory>
    ensures { IfOk result (λ o. o ≡ tree_or_none (store_row_by bits (map plain_type operands.now))) }
{
    let [_, t, indices @ ..] = operands else {
        return Ok(None);
    };
    let Some(of) = memref_buffer(t) else {
        return Ok(None);
    };
    if indices.len() != of.dims.len() {
        return Ok(None);
    }
    let template = store_to(alloc, bits, of)?;
    Ok(Some(template))
}

pub fn store(alloc: Global, bits: u32, shape: &ShapeTree) -> Result<Option<TemplateTree>, NoMemory>
    ensures { IfOk result (λ o. o ≡ tree_or_none (store_row bits (shape_of shape.now))) }
{
    if !has_results(0, shape) {
        return Ok(None);
    }
    store_by(alloc, bits, shape.operands.as_slice())
}
