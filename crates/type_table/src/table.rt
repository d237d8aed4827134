//! The table.

ghost use Rattle.std.specs.Prelude.{◌≡◌, IfOk, map};
ghost use Rattle.plain_tree.specs.Types.{plain_type, type_tree};
ghost use Rattle.conversion_model.specs.Types.{becomes as new_form, converted_type as converted, descriptor as struct_of, descriptor_fields as fields_of, new_type as changed};
ghost use Rattle.type_table.specs.Trees.{numbers_tree, tree_or_none};

use crate::own::is_own;
use sqlite_items::{Boxed, Items};
use std::alloc::Global;
use tree_model::{NoMemory, TypeList, TypeTree, copy_type};

// The sizes or the strides of a descriptor.
fn numbers(alloc: Global, bits: u32, rank: usize) -> Result<TypeTree, NoMemory>
    ensures { IfOk result (λ t. t ≡ numbers_tree bits rank) }
{
    let element = Boxed::new(alloc, TypeTree::Int(bits))?;
    Ok(TypeTree::Array(rank as u64, element))
}

fn descriptor_fields(alloc: Global, bits: u32, rank: usize) -> Result<TypeList, NoMemory>
    ensures { IfOk result (λ ts. ts ≡ map type_tree (fields_of bits rank)) }
{
    let mut fields = Vec::with_capacity(alloc, 5)?;
    fields.push(TypeTree::Ptr)?;
    fields.push(TypeTree::Ptr)?;
    fields.push(TypeTree::Int(bits))?;
    if rank > 0 {
        fields.push(numbers(alloc, bits, rank)?)?;
        fields.push(numbers(alloc, bits, rank)?)?;
    }
    Ok(Items::from_vec(fields))
}

/// The struct that stands for a memref of this rank.
fn descriptor(alloc: Global, bits: u32, rank: usize) -> Result<TypeTree, NoMemory>
    ensures { IfOk result (λ t. t ≡ type_tree (struct_of bits rank)) }
{
    let fields = descriptor_fields(alloc, bits, rank)?;
    Ok(TypeTree::Struct(fields))
}

/// What a type becomes where it changes: `index` becomes an integer, a memref its descriptor.
#[tactic(auto, using(crate::proofs::Opens::opens))]
pub fn new_type(alloc: Global, bits: u32, t: &TypeTree) -> Result<Option<TypeTree>, NoMemory>
    ensures { IfOk result (λ o. o ≡ tree_or_none (changed bits (plain_type t.now))) }
{
    match t {
        TypeTree::Index => Ok(Some(TypeTree::Int(bits))),
        TypeTree::Memref(dims, _) => {
            let struct_type = descriptor(alloc, bits, dims.len())?;
            Ok(Some(struct_type))
        }
        TypeTree::Int(_)
        | TypeTree::Func(_, _)
        | TypeTree::Ptr
        | TypeTree::Void
        | TypeTree::Struct(_)
        | TypeTree::Array(_, _)
        | TypeTree::LlvmFunc(_, _) => Ok(None),
    }
}

#[tactic(auto, using(crate::proofs::Opens::unchanged, crate::proofs::Opens::again))]
/// The type that a type becomes: itself where it has no row.
pub fn becomes(alloc: Global, bits: u32, t: &TypeTree) -> Result<TypeTree, NoMemory>
    ensures tree { IfOk result (λ u. u ≡ type_tree (new_form bits (plain_type t.now))) }
    ensures plain { IfOk result (λ u. plain_type u ≡ new_form bits (plain_type t.now)) }
{
    match new_type(alloc, bits, t)? {
        Some(changed) => Ok(changed),
        None => {
            let same = copy_type(alloc, t)?;
            Ok(same)
        }
    }
}

#[tactic(auto, using(crate::proofs::Opens::kept))]
/// The row of a type, none where it has no row. An own type stays.
pub fn converted_type(alloc: Global, bits: u32, t: &TypeTree) -> Result<Option<TypeTree>, NoMemory>
    ensures { IfOk result (λ o. o ≡ tree_or_none (converted bits (plain_type t.now))) }
{
    if is_own(t) {
        let same = copy_type(alloc, t)?;
        return Ok(Some(same));
    }
    new_type(alloc, bits, t)
}
