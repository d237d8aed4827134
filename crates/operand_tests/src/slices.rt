//! Small tests on types in order.
#![tactic(auto, using(crate::proofs::Opens::opens))]

ghost use Rattle.std.specs.Prelude.{◌≡◌, drop, take};
ghost use Rattle.plain_tree.specs.ValueTypes.{is_own, is_value};
ghost use Rattle.rule_model.specs.Forms.{is_bit, is_index, is_integer, is_memref, is_number, is_pointer};
ghost use Rattle.rule_model.specs.Types as model;
ghost use Rattle.value_types.specs.Views.{plain_types};

use tree_model::TypeTree;
use value_types::{
    all_index, is_bit, is_index, is_integer, is_memref, is_number, is_own, is_pointer, is_value,
    same,
};

/// The types behind the first ones, so many.
pub fn behind<'a, 'b>(types: &'b [&'a TypeTree], count: usize) -> &'b [&'a TypeTree]
    ensures { result.now ≡ drop count types.now }
{
    let start = count.min(types.len());
    &types[start..]
}

/// The first types, so many.
pub fn front<'a, 'b>(types: &'b [&'a TypeTree], count: usize) -> &'b [&'a TypeTree]
    ensures { result.now ≡ take count types.now }
{
    let end = count.min(types.len());
    &types[..end]
}

pub(crate) fn no_types(types: &[&TypeTree]) -> bool
    ensures { result ≡ model.no_types (plain_types types.now) }
{
    match types {
        [] => true,
        _ => false,
    }
}

pub(crate) fn one_number(types: &[&TypeTree]) -> bool
    ensures { result ≡ model.one_of is_number (plain_types types.now) }
{
    match types {
        [t] => is_number(t),
        _ => false,
    }
}

pub(crate) fn one_integer(types: &[&TypeTree]) -> bool
    ensures { result ≡ model.one_of is_integer (plain_types types.now) }
{
    match types {
        [t] => is_integer(t),
        _ => false,
    }
}

pub(crate) fn one_bit(types: &[&TypeTree]) -> bool
    ensures { result ≡ model.one_of is_bit (plain_types types.now) }
{
    match types {
        [t] => is_bit(t),
        _ => false,
    }
}

pub(crate) fn one_index(types: &[&TypeTree]) -> bool
    ensures { result ≡ model.one_of is_index (plain_types types.now) }
{
    match types {
        [t] => is_index(t),
        _ => false,
    }
}

pub(crate) fn one_memref(types: &[&TypeTree]) -> bool
    ensures { result ≡ model.one_of is_memref (plain_types types.now) }
{
    match types {
        [t] => is_memref(t),
        _ => false,
    }
}

pub(crate) fn one_own(types: &[&TypeTree]) -> bool
    ensures { result ≡ model.one_of is_own (plain_types types.now) }
{
    match types {
        [t] => is_own(t),
        _ => false,
    }
}

pub(crate) fn one_pointer(types: &[&TypeTree]) -> bool
    ensures { result ≡ model.one_of is_pointer (plain_types types.now) }
{
    match types {
        [t] => is_pointer(t),
        _ => false,
    }
}

pub(crate) fn two_numbers(types: &[&TypeTree]) -> bool
    ensures { result ≡ model.two_of is_number (plain_types types.now) }
{
    match types {
        [t, u] => is_number(t) && same(t, u),
        _ => false,
    }
}

pub(crate) fn two_integers(types: &[&TypeTree]) -> bool
    ensures { result ≡ model.two_of is_integer (plain_types types.now) }
{
    match types {
        [t, u] => is_integer(t) && same(t, u),
        _ => false,
    }
}

/// `i1` and two equal value types.
pub(crate) fn bit_and_two_values(types: &[&TypeTree]) -> bool
    ensures { result ≡ model.bit_and (model.two_of is_value) (plain_types types.now) }
{
    match types {
        [c, t, u] => is_bit(c) && is_value(t) && same(t, u),
        _ => false,
    }
}

/// `i1` and two equal value types of the llvm dialect.
pub(crate) fn bit_and_two_own(types: &[&TypeTree]) -> bool
    ensures { result ≡ model.bit_and (model.two_of is_own) (plain_types types.now) }
{
    match types {
        [c, t, u] => is_bit(c) && is_own(t) && same(t, u),
        _ => false,
    }
}

/// So many of `index`, and no others.
pub(crate) fn indices(count: usize, types: &[&TypeTree]) -> bool
    ensures { result ≡ model.indices count (plain_types types.now) }
{
    types.len() == count && all_index(types)
}
