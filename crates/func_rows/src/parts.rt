//! The old arguments of a function from its new parameters.

ghost use Rattle.std.specs.Prelude.{◌≡◌, ◌+◌, IfOk, None, length, map};
ghost use Rattle.plain_tree.specs.Types.{Memref, plain_type};
ghost use Rattle.conversion_model.specs.Types.{descriptor};
ghost use Rattle.conversion_model.specs.Templates.{template_tree};
ghost use Rattle.pattern_model.specs.FuncRows.{from_fields as fields_draft, parameters_at, part_of};
ghost use Rattle.row_drafts.specs.Buffers.{as_buffer};
ghost use Rattle.row_drafts.specs.Writes.{Writes};
ghost use Rattle.cut_code.specs.Frames.{part_tree};
ghost use Rattle.func_rows.specs.Parts.{from_fields_as};

use crate::signatures::fields;
use conversion_model::{Source, TemplateTree};
use cut_code::{PartList, PartTree};
use row_drafts::{Buffer, Writer, memref_buffer};
use sqlite_items::Items;
use std::alloc::{AllocError, Global};
use tree_model::{Dim, NoMemory, TypeTree, one};
use type_table::becomes;

pub fn operand_behind(operand: u32) -> Result<u32, NoMemory>
    ensures { IfOk result (λ k. k ≡ operand + 1) }
{
    match operand.checked_add(1) {
        Some(next) => Ok(next),
        None => Err(AllocError),
    }
}

/// Operands from the first on put into an array of a descriptor, one for each dimension.
fn insert_operands(
    writer: &mut Writer,
    alloc: Global,
    field: u32,
    t: &TypeTree,
    first: u32,
    dims: &[Dim],
    into: Source,
) -> Result<Source, NoMemory>
    ensures { IfOk result (λ s. Writes writer.old writer.new (parameters_at field (plain_type t.now) first 0 dims.now into) s) }
{
    let mut operand = first;
    let mut made = into;
    'each: for place in 0..dims.len() {
        made = writer.insert_in(alloc, made, Source::Operand(operand), field, place, t)?;
        operand = operand_behind(operand)?;
    }
    Ok(made)
}

fn first_stride(dims: &[Dim]) -> Result<u32, NoMemory>
    ensures { IfOk result (λ k. k ≡ 3 + length dims.now) }
{
    let Ok(rank) = u32::try_from(dims.len()) else {
        return Err(AllocError);
    };
    match rank.checked_add(3) {
        Some(first) => Ok(first),
        None => Err(AllocError),
    }
}

/// A descriptor from its fields.
fn from_fields(
    writer: &mut Writer,
    alloc: Global,
    t: &TypeTree,
    dims: &[Dim],
) -> Result<Source, NoMemory>
    ensures { IfOk result (λ s. Writes writer.old writer.new (from_fields_as (plain_type t.now) dims.now) s) }
{
    let nothing = writer.undef(alloc, t)?;
    let allocated = writer.insert(alloc, nothing, Source::Operand(0), &[0], t)?;
    let aligned = writer.insert(alloc, allocated, Source::Operand(1), &[1], t)?;
    let based = writer.insert(alloc, aligned, Source::Operand(2), &[2], t)?;
    let sized = insert_operands(writer, alloc, 3, t, 3, dims, based)?;
    let first = first_stride(dims)?;
    let made = insert_operands(writer, alloc, 4, t, first, dims, sized)?;
    Ok(made)
}

// The descriptor in that type.
fn described(alloc: Global, bits: u32, t: &TypeTree, dims: &[Dim]) -> Result<TemplateTree, NoMemory>
    requires { plain_type t.now ≡ descriptor bits (length dims.now) }
    ensures { IfOk result (λ o. o ≡ template_tree (fields_draft bits dims.now 0)) }
{
    let mut writer = Writer::new(alloc);
    let made = from_fields(&mut writer, alloc, t, dims)?;
    let results = one(alloc, made)?;
    Ok(writer.finish(results))
}

fn memref_part(alloc: Global, bits: u32, t: &TypeTree, of: Buffer<'_>) -> Result<PartTree, NoMemory>
    requires { plain_type t.now ≡ Memref of.dims.now (plain_type of.element.now) }
    ensures { IfOk result (λ p. p ≡ part_tree (part_of bits (plain_type t.now))) }
{
    let t = becomes(alloc, bits, t)?;
    let takes = fields(alloc, bits, of.dims.len())?;
    let gives = described(alloc, bits, &t, of.dims)?;
    Ok(PartTree { takes, gives })
}

// Of a type that is no memref.
fn plain_part(alloc: Global, bits: u32, t: &TypeTree) -> Result<PartTree, NoMemory>
    requires { as_buffer (plain_type t.now) ≡ None }
    ensures { IfOk result (λ p. p ≡ part_tree (part_of bits (plain_type t.now))) }
{
    let t = becomes(alloc, bits, t)?;
    let takes = one(alloc, t)?;
    let results = one(alloc, Source::Operand(0))?;
    let gives = TemplateTree {
        steps: Items::new(alloc),
        results,
    };
    Ok(PartTree { takes, gives })
}

fn part(alloc: Global, bits: u32, t: &TypeTree) -> Result<PartTree, NoMemory>
    ensures { IfOk result (λ p. p ≡ part_tree (part_of bits (plain_type t.now))) }
{
    match memref_buffer(t) {
        Some(of) => {
            let part = memref_part(alloc, bits, t, of)?;
            Ok(part)
        }
        None => {
            let part = plain_part(alloc, bits, t)?;
            Ok(part)
        }
    }
}

/// What gives each old argument.
pub fn all_parts(alloc: Global, bits: u32, types: &[TypeTree]) -> Result<PartList, NoMemory>
    ensures { IfOk result (λ ps. ps ≡ map part_tree (map (part_of bits) (map plain_type types.now))) }
{
    let mut parts = Items::new(alloc);
    'each: for t in types {
        parts.push(part(alloc, bits, t)?)?;
    }
    Ok(parts)
}
