//! What the properties of an operation tell about its form.
#![tactic(auto, using(crate::proofs::PropertyLayers::layers))]

ghost use Rattle.std.specs.Prelude.{◌≡◌, IfOk, Option};
ghost use Rattle.std.specs.Option.{option_copied, option_map};
ghost use Rattle.number_code.specs.Models.{comparison_of as stands_for_comparison, flags_of as stands_for_flags};
ghost use Rattle.tree_model.specs.declared.attr_tree.AttrTree.{out-AttrTree};
ghost use Rattle.form_model.specs.Properties as model;
ghost use Rattle.form_code.specs.Views.{pair_view, two_naturals};

use crate::entries::{has_word, property};
use crate::names::{
    alignment, no_signed_wrap, no_unsigned_wrap, overflow_flags, position, predicate, segment_sizes,
};
use number_code::{Comparison, Flags};
use run_code::NumberList;
use sqlite_items::Items;
use std::alloc::Global;
use tree_model::{AttrTree, Name, NoMemory, TypeTree};

/// The number of an attribute that is an integer.
pub fn integer_in(a: &AttrTree) -> Option<i64>
    ensures { result ≡ model.integer_in (out-AttrTree a.now) }
{
    match a {
        AttrTree::Int(value, _) => Some(*value),
        AttrTree::Unit
        | AttrTree::Str(_)
        | AttrTree::List(_)
        | AttrTree::Dict(_)
        | AttrTree::OfType(_)
        | AttrTree::Symbol(_)
        | AttrTree::Ints(_, _)
        | AttrTree::Dialect(_, _) => None,
    }
}

/// An integer.
pub fn integer_of(name: &Name, props: &[(Name, AttrTree)]) -> Option<i64>
    ensures { result ≡ model.integer_of name.now props.now }
{
    match property(name, props) {
        Some(a) => integer_in(a),
        None => None,
    }
}

fn numbers_in(a: &AttrTree) -> Option<&[i64]>
    ensures { option_copied result ≡ model.numbers_in (out-AttrTree a.now) }
{
    match a {
        AttrTree::Ints(_, numbers) => Some(numbers.as_slice()),
        AttrTree::Unit
        | AttrTree::Int(_, _)
        | AttrTree::Str(_)
        | AttrTree::List(_)
        | AttrTree::Dict(_)
        | AttrTree::OfType(_)
        | AttrTree::Symbol(_)
        | AttrTree::Dialect(_, _) => None,
    }
}

/// The numbers of an array.
pub fn numbers_of<'a>(name: &Name, props: &'a [(Name, AttrTree)]) -> Option<&'a [i64]>
    ensures { option_copied result ≡ model.numbers_of name.now props.now }
{
    match property(name, props) {
        Some(a) => numbers_in(a),
        None => None,
    }
}

fn symbol_in(a: &AttrTree) -> Option<&[u8]>
    ensures { option_copied result ≡ model.symbol_in (out-AttrTree a.now) }
{
    match a {
        AttrTree::Symbol(name) => Some(name.as_slice()),
        AttrTree::Unit
        | AttrTree::Int(_, _)
        | AttrTree::Str(_)
        | AttrTree::List(_)
        | AttrTree::Dict(_)
        | AttrTree::OfType(_)
        | AttrTree::Ints(_, _)
        | AttrTree::Dialect(_, _) => None,
    }
}

/// The name of a function.
pub fn symbol_of<'a>(name: &Name, props: &'a [(Name, AttrTree)]) -> Option<&'a [u8]>
    ensures { option_copied result ≡ model.symbol_of name.now props.now }
{
    match property(name, props) {
        Some(a) => symbol_in(a),
        None => None,
    }
}

fn text_in(a: &AttrTree) -> Option<&[u8]>
    ensures { option_copied result ≡ model.text_in (out-AttrTree a.now) }
{
    match a {
        AttrTree::Str(text) => Some(text.as_slice()),
        AttrTree::Unit
        | AttrTree::Int(_, _)
        | AttrTree::List(_)
        | AttrTree::Dict(_)
        | AttrTree::OfType(_)
        | AttrTree::Symbol(_)
        | AttrTree::Ints(_, _)
        | AttrTree::Dialect(_, _) => None,
    }
}

/// A text.
pub fn text_of<'a>(name: &Name, props: &'a [(Name, AttrTree)]) -> Option<&'a [u8]>
    ensures { option_copied result ≡ model.text_of name.now props.now }
{
    match property(name, props) {
        Some(a) => text_in(a),
        None => None,
    }
}

fn type_in(a: &AttrTree) -> Option<&TypeTree>
    ensures { option_copied result ≡ model.type_in (out-AttrTree a.now) }
{
    match a {
        AttrTree::OfType(t) => Some(t),
        AttrTree::Unit
        | AttrTree::Int(_, _)
        | AttrTree::Str(_)
        | AttrTree::List(_)
        | AttrTree::Dict(_)
        | AttrTree::Symbol(_)
        | AttrTree::Ints(_, _)
        | AttrTree::Dialect(_, _) => None,
    }
}

/// A type.
pub fn type_of<'a>(name: &Name, props: &'a [(Name, AttrTree)]) -> Option<&'a TypeTree>
    ensures { option_copied result ≡ model.type_of name.now props.now }
{
    match property(name, props) {
        Some(a) => type_in(a),
        None => None,
    }
}

fn flags_in(a: &AttrTree) -> Option<Flags>
    ensures { option_map stands_for_flags result ≡ model.flags_in (out-AttrTree a.now) }
{
    match a {
        AttrTree::Dialect(_, words) => Some(Flags {
            signed: has_word(&no_signed_wrap(), words.as_slice()),
            unsigned: has_word(&no_unsigned_wrap(), words.as_slice()),
        }),
        AttrTree::Unit
        | AttrTree::Int(_, _)
        | AttrTree::Str(_)
        | AttrTree::List(_)
        | AttrTree::Dict(_)
        | AttrTree::OfType(_)
        | AttrTree::Symbol(_)
        | AttrTree::Ints(_, _) => None,
    }
}

/// The promises: none where the property is missing.
pub fn flags_of(props: &[(Name, AttrTree)]) -> Option<Flags>
    ensures { option_map stands_for_flags result ≡ model.flags_of props.now }
{
    match property(&overflow_flags(), props) {
        Some(a) => flags_in(a),
        None => Some(Flags {
            signed: false,
            unsigned: false,
        }),
    }
}

/// A number that is not negative.
fn natural(z: i64) -> Option<u64>
    ensures { result ≡ model.natural z }
{
    if z >= 0 { Some(z as u64) } else { None }
}

/// Numbers of which none is negative.
fn naturals(alloc: Global, numbers: &[i64]) -> Result<Option<NumberList>, NoMemory>
    ensures { IfOk result (λ ns. ns ≡ model.naturals numbers.now) }
{
    let mut list = Items::new(alloc);
    for z in numbers {
        match natural(*z) {
            Some(n) => list.push(n)?,
            None => return Ok(None),
        }
    }
    Ok(Some(list))
}

/// A path of fields and places.
pub fn position_of(
    alloc: Global,
    props: &[(Name, AttrTree)],
) -> Result<Option<NumberList>, NoMemory>
    ensures { IfOk result (λ path. path ≡ model.position_of props.now) }
{
    match numbers_of(&position(), props) {
        Some(numbers) => naturals(alloc, numbers),
        None => Ok(None),
    }
}

/// The second and the third number, where the first is 1 and none is negative.
fn two_counts(c: i64, a: i64, b: i64) -> Option<(u64, u64)>
    ensures { option_map pair_view result ≡ two_naturals c a b }
{
    if c == 1 && a >= 0 && b >= 0 {
        Some((a as u64, b as u64))
    } else {
        None
    }
}

fn counts_in(numbers: &[i64]) -> Option<(u64, u64)>
    ensures { option_map pair_view result ≡ model.if_some (model.naturals numbers.now) model.successor_counts }
{
    match numbers {
        [c, a, b] => two_counts(*c, *a, *b),
        _ => None,
    }
}

/// How many operands each successor of a branch with a condition takes.
pub fn counts_of(props: &[(Name, AttrTree)]) -> Option<(u64, u64)>
    ensures { option_map pair_view result ≡ model.counts_of props.now }
{
    match numbers_of(&segment_sizes(), props) {
        Some(numbers) => counts_in(numbers),
        None => None,
    }
}

/// The comparison with this number.
fn comparison_at(z: i64) -> Option<Comparison>
    ensures { option_map stands_for_comparison result ≡ model.if_some (model.natural z) (λ n. model.comparison_at n model.comparisons) }
{
    match z {
        0 => Some(Comparison::Equal),
        1 => Some(Comparison::Unequal),
        2 => Some(Comparison::Below),
        3 => Some(Comparison::AtMost),
        4 => Some(Comparison::Above),
        5 => Some(Comparison::AtLeast),
        6 => Some(Comparison::BelowUnsigned),
        7 => Some(Comparison::AtMostUnsigned),
        8 => Some(Comparison::AboveUnsigned),
        9 => Some(Comparison::AtLeastUnsigned),
        _ => None,
    }
}

/// The comparison by the number of its predicate.
pub fn comparison_of(props: &[(Name, AttrTree)]) -> Option<Comparison>
    ensures { option_map stands_for_comparison result ≡ model.comparison_of props.now }
{
    match integer_of(&predicate(), props) {
        Some(z) => comparison_at(z),
        None => None,
    }
}

/// The alignment that a new memref asks for: 1 where it asks for none.
pub fn alignment_of(props: &[(Name, AttrTree)]) -> Option<u64>
    ensures { result ≡ model.alignment_of props.now }
{
    match property(&alignment(), props) {
        Some(a) => match integer_in(a) {
            Some(z) => natural(z),
            None => None,
        },
        None => Some(1),
    }
}
