//! What a type is.
#![tactic(auto, using(crate::proofs::Opens::opens))]

ghost use Rattle.std.specs.Prelude.{◌≡◌, [], ◌∷◌, if◌then◌else◌, map};
ghost use Rattle.std.specs.Option.{option_copied};
ghost use Rattle.plain_tree.specs.Types.{plain_type, same_type, types_in};
ghost use Rattle.plain_tree.specs.ValueTypes as value;
ghost use Rattle.rule_model.specs.Forms as model;

use tree_model::{Dim, TypeTree, same_type};

/// Whether two types are one.
pub fn same(a: &TypeTree, b: &TypeTree) -> bool
    ensures { result ≡ same_type (plain_type a.now) (plain_type b.now) }
{
    same_type(a, b)
}

/// An integer or `index`.
pub fn is_number(t: &TypeTree) -> bool
    ensures { result ≡ model.is_number (plain_type t.now) }
{
    match t {
        TypeTree::Int(_) | TypeTree::Index => true,
        TypeTree::Memref(_, _)
        | TypeTree::Func(_, _)
        | TypeTree::Ptr
        | TypeTree::Void
        | TypeTree::Struct(_)
        | TypeTree::Array(_, _)
        | TypeTree::LlvmFunc(_, _) => false,
    }
}

/// An integer.
pub fn is_integer(t: &TypeTree) -> bool
    ensures { result ≡ model.is_integer (plain_type t.now) }
{
    match t {
        TypeTree::Int(_) => true,
        TypeTree::Index
        | TypeTree::Memref(_, _)
        | TypeTree::Func(_, _)
        | TypeTree::Ptr
        | TypeTree::Void
        | TypeTree::Struct(_)
        | TypeTree::Array(_, _)
        | TypeTree::LlvmFunc(_, _) => false,
    }
}

/// `index`.
pub fn is_index(t: &TypeTree) -> bool
    ensures { result ≡ model.is_index (plain_type t.now) }
{
    match t {
        TypeTree::Index => true,
        TypeTree::Int(_)
        | TypeTree::Memref(_, _)
        | TypeTree::Func(_, _)
        | TypeTree::Ptr
        | TypeTree::Void
        | TypeTree::Struct(_)
        | TypeTree::Array(_, _)
        | TypeTree::LlvmFunc(_, _) => false,
    }
}

/// `i1`.
pub fn is_bit(t: &TypeTree) -> bool
    ensures { result ≡ model.is_bit (plain_type t.now) }
{
    match t {
        TypeTree::Int(width) => *width == 1,
        TypeTree::Index
        | TypeTree::Memref(_, _)
        | TypeTree::Func(_, _)
        | TypeTree::Ptr
        | TypeTree::Void
        | TypeTree::Struct(_)
        | TypeTree::Array(_, _)
        | TypeTree::LlvmFunc(_, _) => false,
    }
}

/// The pointer.
pub fn is_pointer(t: &TypeTree) -> bool
    ensures { result ≡ model.is_pointer (plain_type t.now) }
{
    match t {
        TypeTree::Ptr => true,
        TypeTree::Int(_)
        | TypeTree::Index
        | TypeTree::Memref(_, _)
        | TypeTree::Func(_, _)
        | TypeTree::Void
        | TypeTree::Struct(_)
        | TypeTree::Array(_, _)
        | TypeTree::LlvmFunc(_, _) => false,
    }
}

/// A memref.
pub fn is_memref(t: &TypeTree) -> bool
    ensures { result ≡ model.is_memref (plain_type t.now) }
{
    match t {
        TypeTree::Memref(_, _) => true,
        TypeTree::Int(_)
        | TypeTree::Index
        | TypeTree::Func(_, _)
        | TypeTree::Ptr
        | TypeTree::Void
        | TypeTree::Struct(_)
        | TypeTree::Array(_, _)
        | TypeTree::LlvmFunc(_, _) => false,
    }
}

/// The dimensions of a memref.
pub fn dims_of(t: &TypeTree) -> Option<&[Dim]>
    ensures { option_copied result ≡ model.dims_of (plain_type t.now) }
{
    match t {
        TypeTree::Memref(dims, _) => Some(dims.as_slice()),
        TypeTree::Int(_)
        | TypeTree::Index
        | TypeTree::Func(_, _)
        | TypeTree::Ptr
        | TypeTree::Void
        | TypeTree::Struct(_)
        | TypeTree::Array(_, _)
        | TypeTree::LlvmFunc(_, _) => None,
    }
}

fn is_dynamic(dim: Dim) -> bool
    ensures { (if result then 1 else 0) ≡ model.dynamic_count (dim ∷ []) }
{
    match dim {
        Dim::Dynamic => true,
        Dim::Fixed(_) => false,
    }
}

/// How many dimensions only a run knows.
pub fn dynamic_count(dims: &[Dim]) -> usize
    ensures { result ≡ model.dynamic_count dims.now }
{
    let mut count = 0;
    for dim in dims {
        if is_dynamic(*dim) {
            count += 1;
        }
    }
    count
}

fn may_be_dim(dim: Dim, other: Dim) -> bool
    ensures { result ≡ model.may_be_dim dim other }
{
    match (dim, other) {
        (Dim::Fixed(m), Dim::Fixed(n)) => m == n,
        _ => true,
    }
}

/// Whether a memref of these dimensions may be taken for one of those: as many, each equal or one of the two dynamic.
pub fn may_be_dims(dims: &[Dim], others: &[Dim]) -> bool
    ensures { result ≡ model.may_be_dims dims.now others.now }
{
    if dims.len() != others.len() {
        return false;
    }
    for (dim, other) in dims.iter().zip(others) {
        if !may_be_dim(*dim, *other) {
            return false;
        }
    }
    true
}

/// Whether a type is a value type of the llvm dialect.
#[cycle(own)]
pub fn is_own(t: &TypeTree) -> bool
    ensures { result ≡ value.is_own (plain_type t.now) }
{
    match t {
        TypeTree::Int(_) | TypeTree::Ptr => true,
        TypeTree::Struct(fields) => are_own(fields.as_slice()),
        TypeTree::Array(_, element) => is_own(element.get()),
        TypeTree::Index
        | TypeTree::Memref(_, _)
        | TypeTree::Func(_, _)
        | TypeTree::Void
        | TypeTree::LlvmFunc(_, _) => false,
    }
}

#[cycle(own)]
fn are_own(types: &[TypeTree]) -> bool
    ensures { result ≡ value.all_own (types_in (map plain_type types.now)) }
{
    'each: for t in types {
        if !is_own(t) {
            return false;
        }
    }
    true
}

/// Whether a type is a value type.
pub fn is_value(t: &TypeTree) -> bool
    ensures { result ≡ value.is_value (plain_type t.now) }
{
    match t {
        TypeTree::Index | TypeTree::Memref(_, _) => true,
        TypeTree::Int(_)
        | TypeTree::Func(_, _)
        | TypeTree::Ptr
        | TypeTree::Void
        | TypeTree::Struct(_)
        | TypeTree::Array(_, _)
        | TypeTree::LlvmFunc(_, _) => is_own(t),
    }
}
