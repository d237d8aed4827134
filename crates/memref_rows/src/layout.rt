//! The sizes, the strides and the bytes of an allocation.

ghost use Rattle.std.specs.Prelude.{◌≡◌, ◌+◌, ◌∷◌, ℕ, List, [], IfOk, OnOk, length, pos, reverse};
ghost use Rattle.plain_tree.specs.Types.{plain_type, Int};
ghost use Rattle.conversion_model.specs.declared.templates.Source.{Source as source};
ghost use Rattle.conversion_model.specs.declared.templates.Source.TheVariants.{Operand};
ghost use Rattle.conversion_model.specs.Types.{becomes, number_type};
ghost use Rattle.pattern_model.specs.Drafts.{Draft};
ghost use Rattle.pattern_model.specs.MemrefRows.{bytes_of as bytes_for, constant, elements_of, sizes_of, strides_of};
ghost use Rattle.row_drafts.specs.Writes.{behind, Writes};
ghost use Rattle.memref_rows.specs.Parts.{measured, one_size as size_part, strides_on};

use conversion_model::{Source, SourceList};
use row_drafts::{Buffer, Writer};
use sqlite_items::Items;
use std::alloc::{AllocError, Global};
use tree_model::{Dim, NoMemory, TypeTree};

/// The sizes and the strides of an allocation, and its bytes.
#[derive(Drop)]
pub struct Layout {
    pub sizes: SourceList,
    pub strides: SourceList,
    pub bytes: Source,
}

/// A natural number. One that no address holds wants more memory than there is.
pub fn natural(
    writer: &mut Writer,
    alloc: Global,
    bits: u32,
    number: u64,
) -> Result<Source, NoMemory>
    ensures { IfOk result (λ s. Writes writer.old writer.new (constant (pos number) (number_type bits)) s) }
{
    let Ok(number) = i64::try_from(number) else {
        return Err(AllocError);
    };
    let source = writer.number(alloc, bits, number)?;
    Ok(source)
}

/// The next operand.
fn take_operand(taken: &mut u32) -> Result<Source, NoMemory>
    ensures source { IfOk result (λ s. s ≡ Operand taken.old) }
    ensures taken { OnOk result (taken.new ≡ taken.old + 1) }
{
    let Some(next) = taken.checked_add(1) else {
        return Err(AllocError);
    };
    let source = Source::Operand(*taken);
    *taken = next;
    Ok(source)
}

fn one_size(
    writer: &mut Writer,
    alloc: Global,
    bits: u32,
    dim: Dim,
    taken: &mut u32,
) -> Result<Source, NoMemory>
    ensures { IfOk result (λ s. (next : source → ℕ → Draft) → behind writer.old (size_part bits dim taken.old next) ≡ behind writer.new (next s taken.new)) }
{
    match dim {
        Dim::Fixed(size) => {
            let source = natural(writer, alloc, bits, size)?;
            Ok(source)
        }
        Dim::Dynamic => {
            let source = take_operand(taken)?;
            Ok(source)
        }
    }
}

/// The size of each dimension, in order: a constant where it is fixed, else the next operand.
fn all_sizes(
    writer: &mut Writer,
    alloc: Global,
    bits: u32,
    dims: &[Dim],
) -> Result<SourceList, NoMemory>
    ensures part { IfOk result (λ ss. Writes writer.old writer.new (sizes_of bits dims.now 0) ss) }
    ensures count { IfOk result (λ ss. length ss ≡ length dims.now) }
{
    let mut sizes = Items::new(alloc);
    let mut taken = 0;
    'each: for dim in dims {
        let size = one_size(writer, alloc, bits, *dim, &mut taken)?;
        sizes.push(size)?;
    }
    Ok(sizes)
}

// The last stride is `last`, each other one the next stride times the next size.
fn strides_behind(
    writer: &mut Writer,
    alloc: Global,
    bits: u32,
    last: Source,
    sizes: &[Source],
) -> Result<SourceList, NoMemory>
    ensures { IfOk result (λ ts. Writes writer.old writer.new (strides_on bits (reverse sizes.now) last (last ∷ [])) ts) }
{
    let mut left = Items::from_slice(alloc, sizes)?;
    let mut strides = Vec::from_slice(alloc, &[last])?;
    let mut stride = last;
    'each: while let Some(size) = left.pop() {
        stride = writer.arithmetic(alloc, bits, b"llvm.mul", stride, size)?;
        strides.push(stride)?;
    }
    strides.reverse();
    Ok(Items::from_vec(strides))
}

/// The strides, from the back.
fn all_strides(
    writer: &mut Writer,
    alloc: Global,
    bits: u32,
    last: Source,
    sizes: &[Source],
) -> Result<SourceList, NoMemory>
    ensures { IfOk result (λ ts. Writes writer.old writer.new (strides_of bits last sizes.now) ts) }
{
    let [_, behind @ ..] = sizes else {
        return Ok(Items::new(alloc));
    };
    let strides = strides_behind(writer, alloc, bits, last, behind)?;
    Ok(strides)
}

/// The number of elements: the first stride times the first size, or one where there is no dimension.
fn elements(
    writer: &mut Writer,
    alloc: Global,
    bits: u32,
    one: Source,
    strides: &[Source],
    sizes: &[Source],
) -> Result<Source, NoMemory>
    ensures { IfOk result (λ s. Writes writer.old writer.new (elements_of bits one strides.now sizes.now) s) }
{
    let ([stride, ..], [size, ..]) = (strides, sizes) else {
        return Ok(one);
    };
    let count = writer.arithmetic(alloc, bits, b"llvm.mul", *stride, *size)?;
    Ok(count)
}

fn integer_bytes(width: u32) -> u32
    ensures { result ≡ bytes_for (Int width) }
{
    if width <= 8 {
        1
    } else if width <= 16 {
        2
    } else if width <= 32 {
        4
    } else {
        8
    }
}

/// The bytes of an element.
#[tactic(auto, using(row_code::proofs::Opens::type_opens))]
fn element_bytes(bits: u32, element: &TypeTree) -> u32
    ensures { result ≡ bytes_for (becomes bits (plain_type element.now)) }
{
    match element {
        TypeTree::Int(width) => integer_bytes(*width),
        TypeTree::Index => integer_bytes(bits),
        TypeTree::Memref(_, _)
        | TypeTree::Func(_, _)
        | TypeTree::Ptr
        | TypeTree::Void
        | TypeTree::Struct(_)
        | TypeTree::Array(_, _)
        | TypeTree::LlvmFunc(_, _) => 8,
    }
}

/// The layout of an allocation.
pub fn measure(
    writer: &mut Writer,
    alloc: Global,
    bits: u32,
    of: Buffer<'_>,
) -> Result<Layout, NoMemory>
    ensures part { IfOk result (λ l. Writes writer.old writer.new (measured bits of.entry.dims.now (plain_type of.entry.element.now)) l) }
    ensures count { IfOk result (λ l. length l.sizes ≡ length of.entry.dims.now) }
{
    let sizes = all_sizes(writer, alloc, bits, of.dims)?;
    let one = writer.number(alloc, bits, 1)?;
    let strides = all_strides(writer, alloc, bits, one, sizes.as_slice())?;
    let count = elements(
        writer,
        alloc,
        bits,
        one,
        strides.as_slice(),
        sizes.as_slice(),
    )?;
    let width = writer.number(alloc, bits, i64::from(element_bytes(bits, of.element)))?;
    let bytes = writer.arithmetic(alloc, bits, b"llvm.mul", count, width)?;
    Ok(Layout {
        sizes,
        strides,
        bytes,
    })
}
