//! Casts between types that become the same.

ghost use Rattle.std.specs.Prelude.{◌≡◌, IfOk, [], ◌∷◌, map};
ghost use Rattle.std.specs.List.{list_all};
ghost use Rattle.std.specs.Option.{option_map};
ghost use Rattle.tree_model.specs.declared.type_tree.TypeTree.{out-TypeTree};
ghost use Rattle.tree_model.specs.declared.type_tree.TypeTree as type;
ghost use Rattle.run_code.specs.Views.{form_of};
ghost use Rattle.form_model.specs.Classes as model;
ghost use Rattle.form_model.specs.Types as types;
ghost use Rattle.form_code.specs.SeenViews.{seen_view};

use crate::seen::Seen;
use run_code::{Form, Pure, Width};
use sqlite_items::{Boxed, Items};
use std::alloc::Global;
use tree_model::{NoMemory, TypeList, TypeTree, copy_type, same_type};

/// Whether the type is a value type of the llvm dialect.
#[cycle(is_llvm)]
#[tactic(auto, using(crate::proofs::RecastLemmas::llvm_layers))]
fn is_llvm(t: &TypeTree) -> bool
    ensures { result ≡ types.is_llvm t.now }
{
    match t {
        TypeTree::Int(_) | TypeTree::Ptr => true,
        TypeTree::Struct(fields) => all_llvm(fields.as_slice()),
        TypeTree::Array(_, element) => is_llvm(element.get()),
        TypeTree::Index
        | TypeTree::Memref(_, _)
        | TypeTree::Func(_, _)
        | TypeTree::Void
        | TypeTree::LlvmFunc(_, _) => false,
    }
}

#[cycle(is_llvm)]
#[tactic(auto, using(crate::proofs::RecastLemmas::llvm_layers))]
fn all_llvm(fields: &[TypeTree]) -> bool
    ensures { result ≡ list_all (λ field. field) (map types.is_llvm fields.now) }
{
    for field in fields {
        if !is_llvm(field) {
            return false;
        }
    }
    true
}

/// An array of so many integers.
fn array_of(alloc: Global, bits: Width, rank: u64) -> Result<TypeTree, NoMemory>
    ensures { IfOk result (λ t. t ≡ type.Array rank (type.Int bits.bits)) }
{
    let element = Boxed::new(alloc, TypeTree::Int(bits.bits))?;
    Ok(TypeTree::Array(rank, element))
}

/// The fields of a descriptor in front of its arrays.
fn first_fields(alloc: Global, bits: Width) -> Result<TypeList, NoMemory>
    ensures { IfOk result (λ ts. ts ≡ type.Ptr ∷ type.Ptr ∷ type.Int bits.bits ∷ []) }
{
    let mut fields = Items::new(alloc);
    fields.push(TypeTree::Ptr)?;
    fields.push(TypeTree::Ptr)?;
    fields.push(TypeTree::Int(bits.bits))?;
    Ok(fields)
}

/// The type of a descriptor of this rank.
fn descriptor_type(alloc: Global, bits: Width, rank: u64) -> Result<TypeTree, NoMemory>
    ensures { IfOk result (λ t. t ≡ types.descriptor_type bits.bits rank) }
{
    let mut fields = first_fields(alloc, bits)?;
    if rank > 0 {
        fields.push(array_of(alloc, bits, rank)?)?;
        fields.push(array_of(alloc, bits, rank)?)?;
    }
    Ok(TypeTree::Struct(fields))
}

/// What a type that is none of the llvm dialect becomes.
#[tactic(auto, using(crate::proofs::TypeLayers::layers))]
fn changed(alloc: Global, bits: Width, t: &TypeTree) -> Result<Option<TypeTree>, NoMemory>
    ensures { IfOk result (λ u. u ≡ types.changed_at bits.bits (out-TypeTree t.now)) }
{
    match t {
        TypeTree::Index => Ok(Some(TypeTree::Int(bits.bits))),
        TypeTree::Memref(dims, _) => {
            let descriptor = descriptor_type(alloc, bits, dims.len() as u64)?;
            Ok(Some(descriptor))
        }
        TypeTree::Int(_)
        | TypeTree::Func(_, _)
        | TypeTree::Ptr
        | TypeTree::Void
        | TypeTree::Struct(_)
        | TypeTree::Array(_, _)
        | TypeTree::LlvmFunc(_, _) => Ok(None),
    }
}

/// What a type becomes on the way to the llvm dialect.
fn converted(alloc: Global, bits: Width, t: &TypeTree) -> Result<Option<TypeTree>, NoMemory>
    ensures { IfOk result (λ u. u ≡ types.converted bits.bits t.now) }
{
    if is_llvm(t) {
        let same = copy_type(alloc, t)?;
        Ok(Some(same))
    } else {
        changed(alloc, bits, t)
    }
}

fn are_same(t: &TypeTree, u: &TypeTree) -> bool
    ensures { result ≡ types.same_type t.now u.now }
{
    same_type(t, u)
}

/// Whether two types become the same.
pub fn become_same(alloc: Global, bits: Width, t: &TypeTree, u: &TypeTree) -> Result<bool, NoMemory>
    ensures { IfOk result (λ same. same ≡ types.become_same bits.bits t.now u.now) }
{
    match (converted(alloc, bits, t)?, converted(alloc, bits, u)?) {
        (Some(t), Some(u)) => Ok(are_same(&t, &u)),
        _ => Ok(false),
    }
}

fn recast_from(
    alloc: Global,
    bits: Width,
    t: &TypeTree,
    u: &TypeTree,
) -> Result<Option<Form>, NoMemory>
    ensures { IfOk result (λ f. option_map form_of f ≡ model.recast_of bits.bits (t.now ∷ []) (u.now ∷ [])) }
{
    if become_same(alloc, bits, t, u)? {
        Ok(Some(Form::Computes(Pure::Moves)))
    } else {
        Ok(None)
    }
}

/// A cast of one operand to one result.
pub(crate) fn recast(alloc: Global, seen: &Seen<'_>) -> Result<Option<Form>, NoMemory>
    ensures { IfOk result (λ f. option_map form_of f ≡ model.recast (seen_view seen.now)) }
{
    match (seen.operands, seen.results) {
        ([t], [u]) => recast_from(alloc, seen.bits, t, &u.1),
        _ => Ok(None),
    }
}
