//! Equality of types.

ghost use Rattle.std.specs.Prelude.{◌≡◌, ◌↔◌, IsTrue};

use crate::type_tree::{Dim, TypeTree};

/// Whether two types are one.
#[cycle(same_type)]
pub fn same_type(a: &TypeTree, b: &TypeTree) -> bool
    ensures { IsTrue result ↔ (a.now ≡ b.now) }
{
    match (a, b) {
        (TypeTree::Int(v), TypeTree::Int(w)) => v == w,
        (TypeTree::Index, TypeTree::Index) => true,
        (TypeTree::Memref(v, s), TypeTree::Memref(w, t)) => {
            same_dims(v.as_slice(), w.as_slice()) && same_type(s.get(), t.get())
        }
        (TypeTree::Func(v, s), TypeTree::Func(w, t)) => {
            same_types(v.as_slice(), w.as_slice()) && same_types(s.as_slice(), t.as_slice())
        }
        (TypeTree::Ptr, TypeTree::Ptr) => true,
        (TypeTree::Void, TypeTree::Void) => true,
        (TypeTree::Struct(v), TypeTree::Struct(w)) => same_types(v.as_slice(), w.as_slice()),
        (TypeTree::Array(m, s), TypeTree::Array(n, t)) => m == n && same_type(s.get(), t.get()),
        (TypeTree::LlvmFunc(s, v), TypeTree::LlvmFunc(t, w)) => {
            same_type(s.get(), t.get()) && same_types(v.as_slice(), w.as_slice())
        }
        _ => false,
    }
}

#[cycle(same_type)]
fn same_types(a: &[TypeTree], b: &[TypeTree]) -> bool
    ensures { IsTrue result ↔ (a.now ≡ b.now) }
{
    if a.len() != b.len() {
        return false;
    }
    for (s, t) in a.iter().zip(b) {
        if !same_type(s, t) {
            return false;
        }
    }
    true
}

fn same_dims(a: &[Dim], b: &[Dim]) -> bool
    ensures { IsTrue result ↔ (a.now ≡ b.now) }
{
    if a.len() != b.len() {
        return false;
    }
    for (d, e) in a.iter().zip(b) {
        if d != e {
            return false;
        }
    }
    true
}
