//! Equality of attributes.

ghost use Rattle.std.specs.Prelude.{◌≡◌, ◌↔◌, IsTrue};

use crate::attr_tree::AttrTree;
use crate::name::Name;
use crate::type_same::same_type;

/// Whether two attributes are one.
#[cycle(same_attr)]
pub fn same_attr(a: &AttrTree, b: &AttrTree) -> bool
    ensures { IsTrue result ↔ (a.now ≡ b.now) }
{
    match (a, b) {
        (AttrTree::Unit, AttrTree::Unit) => true,
        (AttrTree::Int(m, s), AttrTree::Int(n, t)) => m == n && same_type(s, t),
        (AttrTree::Str(v), AttrTree::Str(w)) => v == w,
        (AttrTree::List(v), AttrTree::List(w)) => same_attrs(v.as_slice(), w.as_slice()),
        (AttrTree::Dict(v), AttrTree::Dict(w)) => same_dict(v.as_slice(), w.as_slice()),
        (AttrTree::OfType(s), AttrTree::OfType(t)) => same_type(s, t),
        (AttrTree::Symbol(v), AttrTree::Symbol(w)) => v == w,
        (AttrTree::Ints(m, v), AttrTree::Ints(n, w)) => {
            m == n && same_numbers(v.as_slice(), w.as_slice())
        }
        (AttrTree::Dialect(v, s), AttrTree::Dialect(w, t)) => {
            v == w && same_names(s.as_slice(), t.as_slice())
        }
        _ => false,
    }
}

#[cycle(same_attr)]
fn same_attrs(a: &[AttrTree], b: &[AttrTree]) -> bool
    ensures { IsTrue result ↔ (a.now ≡ b.now) }
{
    if a.len() != b.len() {
        return false;
    }
    for (v, w) in a.iter().zip(b) {
        if !same_attr(v, w) {
            return false;
        }
    }
    true
}

/// Whether two dictionaries have the same entries in the same order.
#[cycle(same_attr)]
pub fn same_dict(a: &[(Name, AttrTree)], b: &[(Name, AttrTree)]) -> bool
    ensures { IsTrue result ↔ (a.now ≡ b.now) }
{
    if a.len() != b.len() {
        return false;
    }
    for (v, w) in a.iter().zip(b) {
        if v.0 != w.0 || !same_attr(&v.1, &w.1) {
            return false;
        }
    }
    true
}

fn same_names(a: &[Name], b: &[Name]) -> bool
    ensures { IsTrue result ↔ (a.now ≡ b.now) }
{
    if a.len() != b.len() {
        return false;
    }
    for (v, w) in a.iter().zip(b) {
        if !same_name(v, w) {
            return false;
        }
    }
    true
}

fn same_numbers(a: &[i64], b: &[i64]) -> bool
    ensures { IsTrue result ↔ (a.now ≡ b.now) }
{
    if a.len() != b.len() {
        return false;
    }
    for (m, n) in a.iter().zip(b) {
        if m != n {
            return false;
        }
    }
    true
}

fn same_name(a: &Name, b: &Name) -> bool
    ensures { IsTrue result ↔ (a.now ≡ b.now) }
{
    a == b
}
