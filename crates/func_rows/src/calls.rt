//! Calls.

ghost use Rattle.std.specs.Prelude.{◌≡◌, ◌∷◌, IfOk, Some, [], codes, length, map, pos};
ghost use Rattle.plain_tree.specs.Types.{plain_type, Struct, types_in};
ghost use Rattle.plain_tree.specs.Attrs.{plain_entries};
ghost use Rattle.pattern_model.specs.Drafts.{draft, gives, is_plain as plain, value};
ghost use Rattle.pattern_model.specs.MemrefRows.{extract};
ghost use Rattle.pattern_model.specs.FuncRows.{arguments as arguments_part, call_row, called as called_draft, fields as fields_part, fields_at, unpacked};
ghost use Rattle.row_code.specs.Shapes.{shape_of, tree_or_none};
ghost use Rattle.row_drafts.specs.Buffers.{as_buffer};
ghost use Rattle.row_drafts.specs.Writes.{behind, Writes};
ghost use Rattle.func_rows.specs.Parts.{front_fields as front_part, call_draft, one_argument as argument_part, struct_draft};

use conversion_model::{Source, SourceList, TemplateTree};
use row_code::{ShapeTree, all_types, find, is_plain, kept_props};
use row_drafts::{Writer, memref_buffer};
use sqlite_items::Items;
use std::alloc::{AllocError, Global};
use tree_model::{DictTree, Dim, NoMemory, TypeTree, copy_type, one};

/// The numbers of an array of a descriptor, one for each dimension.
fn array_fields(
    writer: &mut Writer,
    alloc: Global,
    bits: u32,
    from: Source,
    field: u32,
    dims: &[Dim],
) -> Result<SourceList, NoMemory>
    ensures { IfOk result (λ ss. Writes writer.old writer.new (fields_at bits from field 0 dims.now) ss) }
{
    let mut numbers = Items::new(alloc);
    'each: for place in 0..dims.len() {
        let number = writer.extract_number_in(alloc, bits, from, field, place)?;
        numbers.push(number)?;
    }
    Ok(numbers)
}

/// The pointers and the offset of a descriptor.
fn front_fields(
    writer: &mut Writer,
    alloc: Global,
    bits: u32,
    from: Source,
) -> Result<SourceList, NoMemory>
    ensures { IfOk result (λ ss. Writes writer.old writer.new (front_part bits from) ss) }
{
    let allocated = writer.extract_pointer(alloc, from, &[0])?;
    let aligned = writer.extract_pointer(alloc, from, &[1])?;
    let offset = writer.extract_number(alloc, bits, from, &[2])?;
    let fields = Items::from_slice(alloc, &[allocated, aligned, offset])?;
    Ok(fields)
}

/// The fields of a descriptor: pointers, offset, sizes, strides.
fn all_fields(
    writer: &mut Writer,
    alloc: Global,
    bits: u32,
    from: Source,
    dims: &[Dim],
) -> Result<SourceList, NoMemory>
    ensures { IfOk result (λ ss. Writes writer.old writer.new (fields_part bits from dims.now) ss) }
{
    let mut fields = front_fields(writer, alloc, bits, from)?;
    let sizes = array_fields(writer, alloc, bits, from, 3, dims)?;
    let strides = array_fields(writer, alloc, bits, from, 4, dims)?;
    fields.append(sizes)?;
    fields.append(strides)?;
    Ok(fields)
}

// A memref as its fields, any other operand itself.
fn argument(
    writer: &mut Writer,
    alloc: Global,
    bits: u32,
    operand: u32,
    t: &TypeTree,
) -> Result<SourceList, NoMemory>
    ensures { IfOk result (λ ss. Writes writer.old writer.new (argument_part bits operand (as_buffer (plain_type t.now))) ss) }
{
    match memref_buffer(t) {
        Some(of) => {
            let fields = all_fields(writer, alloc, bits, Source::Operand(operand), of.dims)?;
            Ok(fields)
        }
        None => {
            let itself = one(alloc, Source::Operand(operand))?;
            Ok(itself)
        }
    }
}

pub fn operand_at(place: usize) -> Result<u32, NoMemory>
    ensures { IfOk result (λ k. k ≡ place) }
{
    match u32::try_from(place) {
        Ok(operand) => Ok(operand),
        Err(_) => Err(AllocError),
    }
}

/// The arguments of a call.
fn all_arguments(
    writer: &mut Writer,
    alloc: Global,
    bits: u32,
    types: &[TypeTree],
) -> Result<SourceList, NoMemory>
    ensures { IfOk result (λ ss. Writes writer.old writer.new (arguments_part bits 0 (map plain_type types.now)) ss) }
{
    let mut sources = Items::new(alloc);
    'each: for place in 0..types.len() {
        let operand = operand_at(place)?;
        let more = argument(writer, alloc, bits, operand, &types[place])?;
        sources.append(more)?;
    }
    Ok(sources)
}

// One field of a struct.
fn field_of(
    writer: &mut Writer,
    alloc: Global,
    from: Source,
    place: usize,
    t: &TypeTree,
) -> Result<Source, NoMemory>
    ensures { IfOk result (λ s. Writes writer.old writer.new (extract from (pos place ∷ []) (plain_type t.now)) s) }
{
    let Ok(path) = i64::try_from(place) else {
        return Err(AllocError);
    };
    let kept = copy_type(alloc, t)?;
    let source = writer.extract(alloc, from, &[path], kept)?;
    Ok(source)
}

/// The fields of a struct, of these types.
fn unpack(
    writer: &mut Writer,
    alloc: Global,
    from: Source,
    types: &[TypeTree],
) -> Result<SourceList, NoMemory>
    ensures { IfOk result (λ ss. Writes writer.old writer.new (unpacked from 0 (map plain_type types.now)) ss) }
{
    let mut fields = Items::new(alloc);
    'each: for place in 0..types.len() {
        let field = field_of(writer, alloc, from, place, &types[place])?;
        fields.push(field)?;
    }
    Ok(fields)
}

/// A struct of these types.
#[tactic(auto, using(row_code::proofs::Opens::type_opens))]
pub fn struct_of(alloc: Global, types: &[TypeTree]) -> Result<TypeTree, NoMemory>
    ensures { IfOk result (λ t. plain_type t ≡ Struct (types_in (map plain_type types.now))) }
{
    let mut fields = Items::new(alloc);
    'each: for t in types {
        fields.push(copy_type(alloc, t)?)?;
    }
    Ok(TypeTree::Struct(fields))
}

/// The call itself, and what its results are: nothing, one value, or the fields of a struct.
fn called(
    writer: &mut Writer,
    alloc: Global,
    props: DictTree,
    sources: &[Source],
    types: &[TypeTree],
) -> Result<SourceList, NoMemory>
    ensures { IfOk result (λ rs. behind writer.old (called_draft (plain_entries props) sources.now (map plain_type types.now)) ≡ behind writer.new (gives rs)) }
{
    match types {
        [] => {
            writer.effect(alloc, b"llvm.call", sources, props)?;
            Ok(Items::new(alloc))
        }
        [t] => {
            let results = one_called(writer, alloc, props, sources, t)?;
            Ok(results)
        }
        _ => {
            let results = struct_called(writer, alloc, props, sources, types)?;
            Ok(results)
        }
    }
}

fn one_called(
    writer: &mut Writer,
    alloc: Global,
    props: DictTree,
    sources: &[Source],
    t: &TypeTree,
) -> Result<SourceList, NoMemory>
    ensures { IfOk result (λ rs. behind writer.old (value (codes "llvm.call") sources.now (plain_entries props) (plain_type t.now) (λ r. gives (r ∷ []))) ≡ behind writer.new (gives rs)) }
{
    let kept = copy_type(alloc, t)?;
    let value = writer.value(alloc, b"llvm.call", sources, props, kept)?;
    let results = one(alloc, value)?;
    Ok(results)
}

fn struct_called(
    writer: &mut Writer,
    alloc: Global,
    props: DictTree,
    sources: &[Source],
    types: &[TypeTree],
) -> Result<SourceList, NoMemory>
    ensures { IfOk result (λ rs. behind writer.old (struct_draft (plain_entries props) sources.now (map plain_type types.now)) ≡ behind writer.new (gives rs)) }
{
    let t = struct_of(alloc, types)?;
    let value = writer.value(alloc, b"llvm.call", sources, props, t)?;
    let results = unpack(writer, alloc, value, types)?;
    Ok(results)
}

fn call_with(
    alloc: Global,
    bits: u32,
    props: DictTree,
    shape: &ShapeTree,
) -> Result<TemplateTree, NoMemory>
    ensures { IfOk result (λ o. Some o ≡ tree_or_none (draft (call_draft bits (plain_entries props) (shape_of shape.now)))) }
{
    let mut writer = Writer::new(alloc);
    let sources = all_arguments(&mut writer, alloc, bits, shape.operands.as_slice())?;
    let types = all_types(alloc, bits, shape.results.as_slice())?;
    let results = called(
        &mut writer,
        alloc,
        props,
        sources.as_slice(),
        types.as_slice(),
    )?;
    Ok(writer.finish(results))
}

/// Whether an operation has neither successors nor regions.
fn is_straight(shape: &ShapeTree) -> bool
    ensures { result ≡ plain (length (shape_of shape.now).operands) (length (shape_of shape.now).results) (shape_of shape.now) }
{
    is_plain(shape.operands.len(), shape.results.len(), shape)
}

pub fn call(alloc: Global, bits: u32, shape: &ShapeTree) -> Result<Option<TemplateTree>, NoMemory>
    ensures { IfOk result (λ o. o ≡ tree_or_none (call_row bits (shape_of shape.now))) }
{
    if !is_straight(shape) {
        return Ok(None);
    }
    let callee = find(b"callee", shape.props.as_slice());
    let Some(props) = kept_props(alloc, b"callee", callee)? else {
        return Ok(None);
    };
    let template = call_with(alloc, bits, props, shape)?;
    Ok(Some(template))
}
