//! Returns.

ghost use Rattle.std.specs.Prelude.{◌≡◌, ◌∷◌, IfOk, OnOk, Some, [], length, map, pos};
ghost use Rattle.plain_tree.specs.Types.{plain_type};
ghost use Rattle.conversion_model.specs.declared.templates.Source.TheVariants.{Operand};
ghost use Rattle.pattern_model.specs.ArithRows.{all_types as converted};
ghost use Rattle.pattern_model.specs.Drafts.{draft, gives, is_plain as plain};
ghost use Rattle.pattern_model.specs.MemrefRows.{insert};
ghost use Rattle.pattern_model.specs.FuncRows.{packed_in, return_by as return_draft, return_row, returned as returned_draft};
ghost use Rattle.row_code.specs.Shapes.{shape_of, tree_or_none};
ghost use Rattle.row_drafts.specs.Writes.{behind, Writes};
ghost use Rattle.func_rows.specs.Parts.{struct_returned as struct_draft};

use crate::calls::{operand_at, struct_of};
use conversion_model::{Source, TemplateTree};
use row_code::{ShapeTree, all_types, is_plain};
use row_drafts::Writer;
use sqlite_items::Items;
use std::alloc::Global;
use tree_model::{NoMemory, TypeTree};

// The operand at that place put into a struct at the same place.
fn put_operand(
    writer: &mut Writer,
    alloc: Global,
    into: Source,
    place: usize,
    t: &TypeTree,
) -> Result<Source, NoMemory>
    ensures { IfOk result (λ s. Writes writer.old writer.new (insert into (Operand place) (pos place ∷ []) (plain_type t.now)) s) }
{
    let operand = operand_at(place)?;
    let path = [i64::from(operand)];
    let made = writer.insert(alloc, into, Source::Operand(operand), &path, t)?;
    Ok(made)
}

/// All operands put into a struct.
fn pack(
    writer: &mut Writer,
    alloc: Global,
    t: &TypeTree,
    types: &[TypeTree],
    into: Source,
) -> Result<Source, NoMemory>
    ensures { IfOk result (λ s. Writes writer.old writer.new (packed_in (plain_type t.now) 0 (map plain_type types.now) into) s) }
{
    let mut made = into;
    'each: for place in 0..types.len() {
        made = put_operand(writer, alloc, made, place, t)?;
    }
    Ok(made)
}

fn returned(writer: &mut Writer, alloc: Global, sources: &[Source]) -> Result<(), NoMemory>
    ensures { OnOk result (behind writer.old (returned_draft sources.now) ≡ behind writer.new (gives [])) }
{
    writer.effect(alloc, b"llvm.return", sources, Items::new(alloc))?;
    Ok(())
}

fn struct_returned(writer: &mut Writer, alloc: Global, types: &[TypeTree]) -> Result<(), NoMemory>
    ensures { OnOk result (behind writer.old (struct_draft (map plain_type types.now)) ≡ behind writer.new (gives [])) }
{
    let t = struct_of(alloc, types)?;
    let nothing = writer.undef(alloc, &t)?;
    let made = pack(writer, alloc, &t, types, nothing)?;
    returned(writer, alloc, &[made])?;
    Ok(())
}

fn return_by(writer: &mut Writer, alloc: Global, types: &[TypeTree]) -> Result<(), NoMemory>
    ensures { OnOk result (behind writer.old (return_draft (map plain_type types.now)) ≡ behind writer.new (gives [])) }
{
    match types {
        [] => {
            returned(writer, alloc, &[])?;
            Ok(())
        }
        [_] => {
            returned(writer, alloc, &[Source::Operand(0)])?;
            Ok(())
        }
        _ => {
            struct_returned(writer, alloc, types)?;
            Ok(())
        }
    }
}

fn return_template(
    alloc: Global,
    bits: u32,
    operands: &[TypeTree],
) -> Result<TemplateTree, NoMemory>
    ensures { IfOk result (λ o. Some o ≡ tree_or_none (draft (return_draft (converted bits (map plain_type operands.now))))) }
{
    let types = all_types(alloc, bits, operands)?;
    let mut writer = Writer::new(alloc);
    return_by(&mut writer, alloc, types.as_slice())?;
    Ok(writer.finish(Items::new(alloc)))
}

// Whether an operation gives no results, and has neither successors nor regions.
fn has_no_results(shape: &ShapeTree) -> bool
    ensures { result ≡ plain (length (shape_of shape.now).operands) 0 (shape_of shape.now) }
{
    is_plain(shape.operands.len(), 0, shape)
}

/// Several operands are first put into one struct.
pub fn return_values(
    alloc: Global,
    bits: u32,
    shape: &ShapeTree,
) -> Result<Option<TemplateTree>, NoMemory>
    ensures { IfOk result (λ o. o ≡ tree_or_none (return_row bits (shape_of shape.now))) }
{
    if !has_no_results(shape) {
        return Ok(None);
    }
    let template = return_template(alloc, bits, shape.operands.as_slice())?;
    Ok(Some(template))
}
