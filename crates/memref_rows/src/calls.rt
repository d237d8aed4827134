//! The calls that allocate.

ghost use Rattle.std.specs.Prelude.{◌≡◌, IfOk, codes};
ghost use Rattle.plain_tree.specs.Types.{Ptr};
ghost use Rattle.pattern_model.specs.Drafts.{value};
ghost use Rattle.pattern_model.specs.MemrefRows.{aligned_call, callee, plain_call, widened as widened_part};
ghost use Rattle.row_drafts.specs.Writes.{Writes};
ghost use Rattle.memref_rows.specs.Parts.{call_by, rounded as rounded_part};

use conversion_model::Source;
use row_drafts::{Writer, symbol_props};
use sqlite_items::Items;
use std::alloc::{AllocError, Global};
use tree_model::{NoMemory, TypeTree};

/// The call that allocates: of bytes as they are, or of bytes rounded up to an alignment.
#[derive(Clone, Copy, Debug)]
pub enum Allocator {
    Malloc,
    AlignedAlloc(i64),
}

/// A number of 64 bits as it is, any other one extended by that operation.
pub fn widened(
    writer: &mut Writer,
    alloc: Global,
    name: &[u8],
    bits: u32,
    number: Source,
) -> Result<Source, NoMemory>
    ensures { IfOk result (λ s. Writes writer.old writer.new (widened_part name.now bits number) s) }
{
    if bits == 64 {
        return Ok(number);
    }
    let wide = writer.value(alloc, name, &[number], Items::new(alloc), TypeTree::Int(64))?;
    Ok(wide)
}

// A call of a function of that name that gives a pointer.
fn pointer_call(
    writer: &mut Writer,
    alloc: Global,
    name: &[u8],
    sources: &[Source],
) -> Result<Source, NoMemory>
    ensures { IfOk result (λ s. Writes writer.old writer.new (value (codes "llvm.call") sources.now (callee name.now) Ptr) s) }
{
    let props = symbol_props(alloc, name)?;
    let pointer = writer.value(alloc, b"llvm.call", sources, props, TypeTree::Ptr)?;
    Ok(pointer)
}

// Bytes rounded up to the alignment. No alignment is the least number.
fn rounded(
    writer: &mut Writer,
    alloc: Global,
    bits: u32,
    alignment: i64,
    kept: Source,
    bytes: Source,
) -> Result<Source, NoMemory>
    ensures { IfOk result (λ s. Writes writer.old writer.new (rounded_part bits alignment kept bytes) s) }
{
    let Some(less) = alignment.checked_sub(1) else {
        return Err(AllocError);
    };
    let less = writer.number(alloc, bits, less)?;
    let sum = writer.arithmetic(alloc, bits, b"llvm.add", bytes, less)?;
    let times = writer.arithmetic(alloc, bits, b"llvm.udiv", sum, kept)?;
    let whole = writer.arithmetic(alloc, bits, b"llvm.mul", times, kept)?;
    Ok(whole)
}

fn malloc(writer: &mut Writer, alloc: Global, bits: u32, bytes: Source) -> Result<Source, NoMemory>
    ensures { IfOk result (λ s. Writes writer.old writer.new (plain_call bits bytes) s) }
{
    let wide = widened(writer, alloc, b"llvm.zext", bits, bytes)?;
    let pointer = pointer_call(writer, alloc, b"malloc", &[wide])?;
    Ok(pointer)
}

fn aligned_alloc(
    writer: &mut Writer,
    alloc: Global,
    bits: u32,
    alignment: i64,
    bytes: Source,
) -> Result<Source, NoMemory>
    ensures { IfOk result (λ s. Writes writer.old writer.new (aligned_call bits alignment bytes) s) }
{
    let kept = writer.number(alloc, bits, alignment)?;
    let whole = rounded(writer, alloc, bits, alignment, kept, bytes)?;
    let kept = widened(writer, alloc, b"llvm.zext", bits, kept)?;
    let whole = widened(writer, alloc, b"llvm.zext", bits, whole)?;
    let pointer = pointer_call(writer, alloc, b"aligned_alloc", &[kept, whole])?;
    Ok(pointer)
}

/// The allocation of bytes.
pub fn allocate(
    writer: &mut Writer,
    alloc: Global,
    bits: u32,
    by: Allocator,
    bytes: Source,
) -> Result<Source, NoMemory>
    ensures { IfOk result (λ s. Writes writer.old writer.new (call_by by bits bytes) s) }
{
    match by {
        Allocator::Malloc => malloc(writer, alloc, bits, bytes),
        Allocator::AlignedAlloc(alignment) => aligned_alloc(writer, alloc, bits, alignment, bytes),
    }
}
