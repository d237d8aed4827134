//! Functions as text: values are `%0`, `%1`, .., blocks `^0`, `^1`, .., by their numbers.

use tree_model::{BlockTree, Bytes, NoMemory, OpTree, RegionTree, TypeTree};
use tree_text::put_type;

/// A sign and a number.
fn put_numbered(out: &mut Bytes, sign: &[u8], number: u32) -> Result<(), NoMemory> {
    out.put(sign)?;
    out.put_number(u64::from(number))
}

/// A comma in front of all but the first.
fn put_comma(out: &mut Bytes, place: usize) -> Result<(), NoMemory> {
    if place == 0 {
        return Ok(());
    }
    out.put(b", ")
}

fn put_values(out: &mut Bytes, values: &[(u32, TypeTree)]) -> Result<(), NoMemory> {
    for (place, value) in values.iter().enumerate() {
        put_comma(out, place)?;
        put_numbered(out, b"%", value.0)?;
        out.put(b": ")?;
        put_type(out, &value.1)?;
    }
    Ok(())
}

fn put_numbers(out: &mut Bytes, sign: &[u8], numbers: &[u32]) -> Result<(), NoMemory> {
    for (place, number) in numbers.iter().enumerate() {
        put_comma(out, place)?;
        put_numbered(out, sign, *number)?;
    }
    Ok(())
}

fn put_results(out: &mut Bytes, results: &[(u32, TypeTree)]) -> Result<(), NoMemory> {
    if results.is_empty() {
        return Ok(());
    }
    put_values(out, results)?;
    out.put(b" = ")
}

fn put_successors(out: &mut Bytes, successors: &[u32]) -> Result<(), NoMemory> {
    if successors.is_empty() {
        return Ok(());
    }
    out.put(b" ")?;
    put_numbers(out, b"^", successors)
}

/// An operation without its regions, as a line.
fn put_head(out: &mut Bytes, op: &OpTree) -> Result<(), NoMemory> {
    put_results(out, op.results.as_slice())?;
    out.put(op.name.as_slice())?;
    out.put(b"(")?;
    put_numbers(out, b"%", op.operands.as_slice())?;
    out.put(b")")?;
    put_successors(out, op.successors.as_slice())?;
    out.put(b"\n")
}

/// An operation with all that it holds.
#[cycle(put_op)]
pub fn put_op(out: &mut Bytes, op: &OpTree) -> Result<(), NoMemory> {
    put_head(out, op)?;
    put_regions(out, op.regions.as_slice())
}

#[cycle(put_op)]
fn put_regions(out: &mut Bytes, regions: &[RegionTree]) -> Result<(), NoMemory> {
    for region in regions {
        out.put(b"{\n")?;
        put_blocks(out, region.blocks.as_slice())?;
        out.put(b"}\n")?;
    }
    Ok(())
}

#[cycle(put_op)]
fn put_blocks(out: &mut Bytes, blocks: &[BlockTree]) -> Result<(), NoMemory> {
    for block in blocks {
        put_numbered(out, b"^", block.label)?;
        out.put(b"(")?;
        put_values(out, block.args.as_slice())?;
        out.put(b"):\n")?;
        put_ops(out, block.ops.as_slice())?;
    }
    Ok(())
}

#[cycle(put_op)]
fn put_ops(out: &mut Bytes, ops: &[OpTree]) -> Result<(), NoMemory> {
    for op in ops {
        put_op(out, op)?;
    }
    Ok(())
}

/// Each result with the value that it stands for.
pub fn put_pairs(out: &mut Bytes, pairs: &[(u32, u32)]) -> Result<(), NoMemory> {
    for pair in pairs {
        put_numbered(out, b"%", pair.0)?;
        put_numbered(out, b" stands for %", pair.1)?;
        out.put(b"\n")?;
    }
    Ok(())
}
