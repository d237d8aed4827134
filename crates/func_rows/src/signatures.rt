//! The types of functions.

ghost use Rattle.std.specs.Prelude.{◌≡◌, ◌++◌, IfOk, OnOk, Some, length, map, option_map, replicate};
ghost use Rattle.tree_model.specs.declared.type_tree.TypeTree as type;
ghost use Rattle.plain_tree.specs.Types.{Func, plain_type, type_tree, types_in};
ghost use Rattle.conversion_model.specs.Types.{all_converted as all_outputs, all_parameters as all_inputs, converted_type as table_row, one_list, packed as packed_type, parameters as inputs_of, signature as llvm_signature};
ghost use Rattle.func_rows.specs.Fields.{field_types, plain_list};

use row_drafts::memref_buffer;
use sqlite_items::{Boxed, Items};
use std::alloc::Global;
use tree_model::{NoMemory, TypeList, TypeTree, copy_type, one};
use type_table::converted_type;

fn push_numbers(types: &mut TypeList, bits: u32, count: usize) -> Result<(), NoMemory>
    ensures { OnOk result (types.new ≡ types.old ++ replicate count (type.Int bits)) }
{
    'each: for _place in 0..count {
        types.push(TypeTree::Int(bits))?;
    }
    Ok(())
}

/// The fields of a memref as types: two pointers, the offset, the sizes, the strides.
#[tactic(auto, using(crate::proofs::FieldLaws::fields_again))]
pub fn fields(alloc: Global, bits: u32, rank: usize) -> Result<TypeList, NoMemory>
    ensures tree { IfOk result (λ ts. ts ≡ map type_tree (field_types bits rank)) }
    ensures plain { IfOk result (λ ts. map plain_type ts ≡ field_types bits rank) }
{
    let mut types = Items::new(alloc);
    types.push(TypeTree::Ptr)?;
    types.push(TypeTree::Ptr)?;
    types.push(TypeTree::Int(bits))?;
    push_numbers(&mut types, bits, rank)?;
    push_numbers(&mut types, bits, rank)?;
    Ok(types)
}

/// A type converted, none where it has no row.
fn one_converted(alloc: Global, bits: u32, t: &TypeTree) -> Result<Option<TypeList>, NoMemory>
    ensures { IfOk result (λ o. plain_list o ≡ one_list (table_row bits (plain_type t.now))) }
{
    let Some(t) = converted_type(alloc, bits, t)? else {
        return Ok(None);
    };
    let list = one(alloc, t)?;
    Ok(Some(list))
}

/// The parameters that a parameter becomes.
fn parameters(alloc: Global, bits: u32, t: &TypeTree) -> Result<Option<TypeList>, NoMemory>
    ensures { IfOk result (λ o. plain_list o ≡ inputs_of bits (plain_type t.now)) }
{
    if let Some(of) = memref_buffer(t) {
        let types = fields(alloc, bits, of.dims.len())?;
        return Ok(Some(types));
    }
    let types = one_converted(alloc, bits, t)?;
    Ok(types)
}

fn all_parameters(
    alloc: Global,
    bits: u32,
    types: &[TypeTree],
) -> Result<Option<TypeList>, NoMemory>
    ensures { IfOk result (λ o. plain_list o ≡ all_inputs bits (map plain_type types.now)) }
{
    let mut all = Items::new(alloc);
    'each: for t in types {
        let Some(more) = parameters(alloc, bits, t)? else {
            return Ok(None);
        };
        all.append(more)?;
    }
    Ok(Some(all))
}

fn all_converted(alloc: Global, bits: u32, types: &[TypeTree]) -> Result<Option<TypeList>, NoMemory>
    ensures { IfOk result (λ o. plain_list o ≡ all_outputs bits (map plain_type types.now)) }
{
    let mut all = Items::new(alloc);
    'each: for t in types {
        let Some(more) = one_converted(alloc, bits, t)? else {
            return Ok(None);
        };
        all.append(more)?;
    }
    Ok(Some(all))
}

/// What results become: none `void`, one itself, several a struct.
#[tactic(auto, using(row_code::proofs::Opens::type_opens))]
fn packed(alloc: Global, types: TypeList) -> Result<TypeTree, NoMemory>
    ensures { IfOk result (λ t. plain_type t ≡ packed_type (map plain_type types)) }
{
    match types.as_slice() {
        [] => Ok(TypeTree::Void),
        [t] => {
            let same = copy_type(alloc, t)?;
            Ok(same)
        }
        _ => Ok(TypeTree::Struct(types)),
    }
}

fn signature_of(
    alloc: Global,
    bits: u32,
    inputs: &[TypeTree],
    outputs: &[TypeTree],
) -> Result<Option<TypeTree>, NoMemory>
    ensures { IfOk result (λ o. option_map plain_type o ≡ llvm_signature bits (Func (types_in (map plain_type inputs.now)) (types_in (map plain_type outputs.now)))) }
{
    let Some(params) = all_parameters(alloc, bits, inputs)? else {
        return Ok(None);
    };
    let Some(outputs) = all_converted(alloc, bits, outputs)? else {
        return Ok(None);
    };
    let output = packed(alloc, outputs)?;
    let output = Boxed::new(alloc, output)?;
    Ok(Some(TypeTree::LlvmFunc(output, params)))
}

/// The type of the llvm function that stands for one of this type, none where it is no function type of value types.
#[tactic(auto, using(row_code::proofs::Opens::type_opens))]
pub fn signature(alloc: Global, bits: u32, t: &TypeTree) -> Result<Option<TypeTree>, NoMemory>
    ensures { IfOk result (λ o. option_map plain_type o ≡ llvm_signature bits (plain_type t.now)) }
{
    match t {
        TypeTree::Func(inputs, outputs) => {
            let made = signature_of(alloc, bits, inputs.as_slice(), outputs.as_slice())?;
            Ok(made)
        }
        TypeTree::Int(_)
        | TypeTree::Index
        | TypeTree::Memref(_, _)
        | TypeTree::Ptr
        | TypeTree::Void
        | TypeTree::Struct(_)
        | TypeTree::Array(_, _)
        | TypeTree::LlvmFunc(_, _) => Ok(None),
    }
}
