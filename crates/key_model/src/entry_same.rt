//! Equality of entries.

ghost use Rattle.std.specs.Prelude.{◌≡◌, ◌↔◌, IsTrue};

use crate::entry::{Entry, Head};
use crate::handle::Handle;
use tree_model::{Dim, Name};

fn same_dims(a: &[Dim], b: &[Dim]) -> bool
    ensures { IsTrue result ↔ (a.now ≡ b.now) }
{
    if a.len() != b.len() {
        return false;
    }
    for (d, e) in a.iter().zip(b) {
        if d != e {
            return false;
        }
    }
    true
}

fn same_name(a: &Name, b: &Name) -> bool
    ensures { IsTrue result ↔ (a.now ≡ b.now) }
{
    a == b
}

fn same_names(a: &[Name], b: &[Name]) -> bool
    ensures { IsTrue result ↔ (a.now ≡ b.now) }
{
    if a.len() != b.len() {
        return false;
    }
    for (v, w) in a.iter().zip(b) {
        if !same_name(v, w) {
            return false;
        }
    }
    true
}

fn same_numbers(a: &[i64], b: &[i64]) -> bool
    ensures { IsTrue result ↔ (a.now ≡ b.now) }
{
    if a.len() != b.len() {
        return false;
    }
    for (m, n) in a.iter().zip(b) {
        if m != n {
            return false;
        }
    }
    true
}

fn same_handle(a: Handle, b: Handle) -> bool
    ensures { IsTrue result ↔ (a ≡ b) }
{
    a == b
}

fn same_handles(a: &[Handle], b: &[Handle]) -> bool
    ensures { IsTrue result ↔ (a.now ≡ b.now) }
{
    if a.len() != b.len() {
        return false;
    }
    for (g, h) in a.iter().zip(b) {
        if !same_handle(*g, *h) {
            return false;
        }
    }
    true
}

/// Whether two heads are one.
pub fn same_head(a: &Head, b: &Head) -> bool
    ensures { IsTrue result ↔ (a.now ≡ b.now) }
{
    match (a, b) {
        (Head::TInt(v), Head::TInt(w)) => v == w,
        (Head::TIndex, Head::TIndex) => true,
        (Head::TMemref(v), Head::TMemref(w)) => same_dims(v.as_slice(), w.as_slice()),
        (Head::TFunc(v), Head::TFunc(w)) => v == w,
        (Head::TPtr, Head::TPtr) => true,
        (Head::TVoid, Head::TVoid) => true,
        (Head::TStruct, Head::TStruct) => true,
        (Head::TArray(v), Head::TArray(w)) => v == w,
        (Head::TLlvmFunc, Head::TLlvmFunc) => true,
        (Head::Unit, Head::Unit) => true,
        (Head::Int(v), Head::Int(w)) => v == w,
        (Head::Str(v), Head::Str(w)) => v == w,
        (Head::List, Head::List) => true,
        (Head::Dict(v), Head::Dict(w)) => same_names(v.as_slice(), w.as_slice()),
        (Head::OfType, Head::OfType) => true,
        (Head::Symbol(v), Head::Symbol(w)) => v == w,
        (Head::Ints(m, v), Head::Ints(n, w)) => {
            m == n && same_numbers(v.as_slice(), w.as_slice())
        }
        (Head::Dialect(v, s), Head::Dialect(w, t)) => {
            v == w && same_names(s.as_slice(), t.as_slice())
        }
        _ => false,
    }
}

/// Whether two entries are one.
pub fn same_entry(a: &Entry, b: &Entry) -> bool
    ensures { IsTrue result ↔ (a.now ≡ b.now) }
{
    same_head(&a.head, &b.head) && same_handles(a.children.as_slice(), b.children.as_slice())
}
