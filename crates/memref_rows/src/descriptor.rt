//! The descriptor of an allocation.

ghost use Rattle.std.specs.Prelude.{◌≡◌, IfOk};
ghost use Rattle.plain_tree.specs.Types.{plain_type};
ghost use Rattle.pattern_model.specs.MemrefRows.{inserted};
ghost use Rattle.row_drafts.specs.Writes.{Writes};
ghost use Rattle.memref_rows.specs.Parts.{described_as, with_pointers as pointers_part};

use crate::layout::Layout;
use conversion_model::Source;
use row_drafts::Writer;
use std::alloc::Global;
use tree_model::{NoMemory, TypeTree};

/// A descriptor with both pointers and the offset.
fn with_pointers(
    writer: &mut Writer,
    alloc: Global,
    t: &TypeTree,
    pointer: Source,
    offset: Source,
) -> Result<Source, NoMemory>
    ensures { IfOk result (λ s. Writes writer.old writer.new (pointers_part (plain_type t.now) pointer offset) s) }
{
    let nothing = writer.undef(alloc, t)?;
    let allocated = writer.insert(alloc, nothing, pointer, &[0], t)?;
    let aligned = writer.insert(alloc, allocated, pointer, &[1], t)?;
    let made = writer.insert(alloc, aligned, offset, &[2], t)?;
    Ok(made)
}

/// Values put into an array of a descriptor, in order.
fn insert_all(
    writer: &mut Writer,
    alloc: Global,
    field: u32,
    t: &TypeTree,
    values: &[Source],
    into: Source,
) -> Result<Source, NoMemory>
    ensures { IfOk result (λ s. Writes writer.old writer.new (inserted field (plain_type t.now) 0 values.now into) s) }
{
    let mut made = into;
    'each: for place in 0..values.len() {
        made = writer.insert_in(alloc, made, values[place], field, place, t)?;
    }
    Ok(made)
}

/// The descriptor of a layout at that pointer.
pub fn describe(
    writer: &mut Writer,
    alloc: Global,
    bits: u32,
    t: &TypeTree,
    layout: &Layout,
    pointer: Source,
) -> Result<Source, NoMemory>
    ensures { IfOk result (λ s. Writes writer.old writer.new (described_as bits (plain_type t.now) layout.now.sizes layout.now.strides pointer) s) }
{
    let offset = writer.number(alloc, bits, 0)?;
    let based = with_pointers(writer, alloc, t, pointer, offset)?;
    let sized = insert_all(writer, alloc, 3, t, layout.sizes.as_slice(), based)?;
    let made = insert_all(writer, alloc, 4, t, layout.strides.as_slice(), sized)?;
    Ok(made)
}
