//! The forms of attributes.
#![tactic(auto, using(crate::proofs::Opens::opens))]

ghost use Rattle.std.specs.Prelude.{◌≡◌, ◌==◌, map};
ghost use Rattle.std.specs.List.{list_all, list_any};
ghost use Rattle.std.specs.Str.{bytes_eq};
ghost use Rattle.plain_tree.specs.Types.{Index, Int, plain_type, same_type};
ghost use Rattle.plain_tree.specs.Attrs.{Dialect, Number, OfType, plain_attr};
ghost use Rattle.rule_model.specs.Forms as model;
ghost use Rattle.attribute_tests.specs.Tests as tests;

use tree_model::{AttrTree, Name, TypeTree};
use value_types::{is_bit, is_integer, same};

pub(crate) fn is_text(a: &AttrTree) -> bool
    ensures { result ≡ model.is_text (plain_attr a.now) }
{
    match a {
        AttrTree::Str(_) => true,
        AttrTree::Unit
        | AttrTree::Int(_, _)
        | AttrTree::List(_)
        | AttrTree::Dict(_)
        | AttrTree::OfType(_)
        | AttrTree::Symbol(_)
        | AttrTree::Ints(_, _)
        | AttrTree::Dialect(_, _) => false,
    }
}

pub(crate) fn is_symbol(a: &AttrTree) -> bool
    ensures { result ≡ model.is_symbol (plain_attr a.now) }
{
    match a {
        AttrTree::Symbol(_) => true,
        AttrTree::Unit
        | AttrTree::Int(_, _)
        | AttrTree::Str(_)
        | AttrTree::List(_)
        | AttrTree::Dict(_)
        | AttrTree::OfType(_)
        | AttrTree::Ints(_, _)
        | AttrTree::Dialect(_, _) => false,
    }
}

pub(crate) fn is_unit(a: &AttrTree) -> bool
    ensures { result ≡ model.is_unit (plain_attr a.now) }
{
    match a {
        AttrTree::Unit => true,
        AttrTree::Int(_, _)
        | AttrTree::Str(_)
        | AttrTree::List(_)
        | AttrTree::Dict(_)
        | AttrTree::OfType(_)
        | AttrTree::Symbol(_)
        | AttrTree::Ints(_, _)
        | AttrTree::Dialect(_, _) => false,
    }
}

/// `true` or `false`.
pub(crate) fn is_truth(a: &AttrTree) -> bool
    ensures { result ≡ model.is_truth (plain_attr a.now) }
{
    match a {
        AttrTree::Int(_, t) => is_bit(t),
        AttrTree::Unit
        | AttrTree::Str(_)
        | AttrTree::List(_)
        | AttrTree::Dict(_)
        | AttrTree::OfType(_)
        | AttrTree::Symbol(_)
        | AttrTree::Ints(_, _)
        | AttrTree::Dialect(_, _) => false,
    }
}

fn is_dict(a: &AttrTree) -> bool
    ensures { result ≡ tests.is_dict (plain_attr a.now) }
{
    match a {
        AttrTree::Dict(_) => true,
        AttrTree::Unit
        | AttrTree::Int(_, _)
        | AttrTree::Str(_)
        | AttrTree::List(_)
        | AttrTree::OfType(_)
        | AttrTree::Symbol(_)
        | AttrTree::Ints(_, _)
        | AttrTree::Dialect(_, _) => false,
    }
}

fn are_dicts(attrs: &[AttrTree]) -> bool
    ensures { result ≡ list_all tests.is_dict (map plain_attr attrs.now) }
{
    for a in attrs {
        if !is_dict(a) {
            return false;
        }
    }
    true
}

/// A list of dictionaries.
pub(crate) fn is_dict_list(a: &AttrTree) -> bool
    ensures { result ≡ model.is_dict_list (plain_attr a.now) }
{
    match a {
        AttrTree::List(attrs) => are_dicts(attrs.as_slice()),
        AttrTree::Unit
        | AttrTree::Int(_, _)
        | AttrTree::Str(_)
        | AttrTree::Dict(_)
        | AttrTree::OfType(_)
        | AttrTree::Symbol(_)
        | AttrTree::Ints(_, _)
        | AttrTree::Dialect(_, _) => false,
    }
}

fn is_func(t: &TypeTree) -> bool
    ensures { result ≡ model.is_func_type (OfType (plain_type t.now)) }
{
    match t {
        TypeTree::Func(_, _) => true,
        TypeTree::Int(_)
        | TypeTree::Index
        | TypeTree::Memref(_, _)
        | TypeTree::Ptr
        | TypeTree::Void
        | TypeTree::Struct(_)
        | TypeTree::Array(_, _)
        | TypeTree::LlvmFunc(_, _) => false,
    }
}

fn is_llvm_func(t: &TypeTree) -> bool
    ensures { result ≡ model.is_llvm_func_type (OfType (plain_type t.now)) }
{
    match t {
        TypeTree::LlvmFunc(_, _) => true,
        TypeTree::Int(_)
        | TypeTree::Index
        | TypeTree::Memref(_, _)
        | TypeTree::Func(_, _)
        | TypeTree::Ptr
        | TypeTree::Void
        | TypeTree::Struct(_)
        | TypeTree::Array(_, _) => false,
    }
}

pub(crate) fn is_func_type(a: &AttrTree) -> bool
    ensures { result ≡ model.is_func_type (plain_attr a.now) }
{
    match a {
        AttrTree::OfType(t) => is_func(t),
        AttrTree::Unit
        | AttrTree::Int(_, _)
        | AttrTree::Str(_)
        | AttrTree::List(_)
        | AttrTree::Dict(_)
        | AttrTree::Symbol(_)
        | AttrTree::Ints(_, _)
        | AttrTree::Dialect(_, _) => false,
    }
}

pub(crate) fn is_llvm_func_type(a: &AttrTree) -> bool
    ensures { result ≡ model.is_llvm_func_type (plain_attr a.now) }
{
    match a {
        AttrTree::OfType(t) => is_llvm_func(t),
        AttrTree::Unit
        | AttrTree::Int(_, _)
        | AttrTree::Str(_)
        | AttrTree::List(_)
        | AttrTree::Dict(_)
        | AttrTree::Symbol(_)
        | AttrTree::Ints(_, _)
        | AttrTree::Dialect(_, _) => false,
    }
}

/// The type of an integer of any number of bits.
pub(crate) fn is_integer_type(a: &AttrTree) -> bool
    ensures { result ≡ model.is_integer_type (plain_attr a.now) }
{
    match a {
        AttrTree::OfType(t) => is_integer(t),
        AttrTree::Unit
        | AttrTree::Int(_, _)
        | AttrTree::Str(_)
        | AttrTree::List(_)
        | AttrTree::Dict(_)
        | AttrTree::Symbol(_)
        | AttrTree::Ints(_, _)
        | AttrTree::Dialect(_, _) => false,
    }
}

/// An integer of this type.
pub(crate) fn is_integer_of(t: &TypeTree, a: &AttrTree) -> bool
    ensures { result ≡ model.is_integer_of (plain_type t.now) (plain_attr a.now) }
{
    match a {
        AttrTree::Int(_, u) => same(u, t),
        AttrTree::Unit
        | AttrTree::Str(_)
        | AttrTree::List(_)
        | AttrTree::Dict(_)
        | AttrTree::OfType(_)
        | AttrTree::Symbol(_)
        | AttrTree::Ints(_, _)
        | AttrTree::Dialect(_, _) => false,
    }
}

/// An integer of `index`.
pub(crate) fn is_index_integer(a: &AttrTree) -> bool
    ensures { result ≡ model.is_integer_of Index (plain_attr a.now) }
{
    match a {
        AttrTree::Int(_, u) => is_same_index(u),
        AttrTree::Unit
        | AttrTree::Str(_)
        | AttrTree::List(_)
        | AttrTree::Dict(_)
        | AttrTree::OfType(_)
        | AttrTree::Symbol(_)
        | AttrTree::Ints(_, _)
        | AttrTree::Dialect(_, _) => false,
    }
}

fn is_same_index(t: &TypeTree) -> bool
    ensures { result ≡ same_type (plain_type t.now) Index }
{
    match t {
        TypeTree::Index => true,
        TypeTree::Int(_)
        | TypeTree::Memref(_, _)
        | TypeTree::Func(_, _)
        | TypeTree::Ptr
        | TypeTree::Void
        | TypeTree::Struct(_)
        | TypeTree::Array(_, _)
        | TypeTree::LlvmFunc(_, _) => false,
    }
}

fn is_wide(t: &TypeTree) -> bool
    ensures { result ≡ same_type (plain_type t.now) (Int 64) }
{
    match t {
        TypeTree::Int(width) => *width == 64,
        TypeTree::Index
        | TypeTree::Memref(_, _)
        | TypeTree::Func(_, _)
        | TypeTree::Ptr
        | TypeTree::Void
        | TypeTree::Struct(_)
        | TypeTree::Array(_, _)
        | TypeTree::LlvmFunc(_, _) => false,
    }
}

fn is_below_ten(value: i64, t: &TypeTree) -> bool
    ensures { result ≡ model.is_predicate (Number value (plain_type t.now)) }
{
    value >= 0 && value < 10 && is_wide(t)
}

/// An `i64` integer from 0 to 9.
pub(crate) fn is_predicate(a: &AttrTree) -> bool
    ensures { result ≡ model.is_predicate (plain_attr a.now) }
{
    match a {
        AttrTree::Int(value, t) => is_below_ten(*value, t),
        AttrTree::Unit
        | AttrTree::Str(_)
        | AttrTree::List(_)
        | AttrTree::Dict(_)
        | AttrTree::OfType(_)
        | AttrTree::Symbol(_)
        | AttrTree::Ints(_, _)
        | AttrTree::Dialect(_, _) => false,
    }
}

const ALIGNMENTS: &[u64] = &[1, 2, 4, 8, 16, 32, 64, 128, 256, 512, 1024, 2048, 4096];

fn alignments() -> &'static [u64]
    ensures { result.now ≡ model.alignments }
{
    ALIGNMENTS
}

fn has_number(numbers: &[u64], number: u64) -> bool
    ensures { result ≡ list_any (λ a. a == number) numbers.now }
{
    for other in numbers {
        if *other == number {
            return true;
        }
    }
    false
}

fn is_power(value: i64) -> bool
    ensures { result ≡ tests.is_power value }
{
    value >= 0 && has_number(alignments(), value as u64)
}

/// An integer that is a power of two up to 4096.
pub(crate) fn is_alignment(a: &AttrTree) -> bool
    ensures { result ≡ model.is_alignment (plain_attr a.now) }
{
    match a {
        AttrTree::Int(value, _) => is_power(*value),
        AttrTree::Unit
        | AttrTree::Str(_)
        | AttrTree::List(_)
        | AttrTree::Dict(_)
        | AttrTree::OfType(_)
        | AttrTree::Symbol(_)
        | AttrTree::Ints(_, _)
        | AttrTree::Dialect(_, _) => false,
    }
}

fn has_text(name: &Name, text: &[u8]) -> bool
    ensures { result ≡ bytes_eq name.now text.now }
{
    name.as_slice() == text
}

fn is_flag(word: &Name) -> bool
    ensures { result ≡ model.is_flag word.now }
{
    has_text(word, b"none") || has_text(word, b"nsw") || has_text(word, b"nuw")
}

fn all_flags(words: &[Name]) -> bool
    ensures { result ≡ list_all model.is_flag words.now }
{
    for word in words {
        if !is_flag(word) {
            return false;
        }
    }
    true
}

fn are_flags(words: &[Name]) -> bool
    ensures { result ≡ model.are_flags words.now }
{
    match words {
        [] => false,
        _ => all_flags(words),
    }
}

/// Flags under this name: one word or more.
pub(crate) fn is_flags(dialect: &[u8], a: &AttrTree) -> bool
    ensures { result ≡ model.is_flags dialect.now (plain_attr a.now) }
{
    match a {
        AttrTree::Dialect(name, words) => has_text(name, dialect) && are_flags(words.as_slice()),
        AttrTree::Unit
        | AttrTree::Int(_, _)
        | AttrTree::Str(_)
        | AttrTree::List(_)
        | AttrTree::Dict(_)
        | AttrTree::OfType(_)
        | AttrTree::Symbol(_)
        | AttrTree::Ints(_, _) => false,
    }
}

fn is_linkage_of(name: &Name, words: &[Name]) -> bool
    ensures { result ≡ model.is_linkage (Dialect name.now words.now) }
{
    match words {
        [_] => has_text(name, b"llvm.linkage"),
        _ => false,
    }
}

/// One word under the name of linkages.
pub(crate) fn is_linkage(a: &AttrTree) -> bool
    ensures { result ≡ model.is_linkage (plain_attr a.now) }
{
    match a {
        AttrTree::Dialect(name, words) => is_linkage_of(name, words.as_slice()),
        AttrTree::Unit
        | AttrTree::Int(_, _)
        | AttrTree::Str(_)
        | AttrTree::List(_)
        | AttrTree::Dict(_)
        | AttrTree::OfType(_)
        | AttrTree::Symbol(_)
        | AttrTree::Ints(_, _) => false,
    }
}

fn is_count(count: usize, number: i64) -> bool
    ensures { result ≡ tests.is_count count number }
{
    number >= 0 && number as u64 == count as u64
}

fn count_and_zero(count: usize, numbers: &[i64]) -> bool
    ensures { result ≡ model.count_and_zero count numbers.now }
{
    match numbers {
        [d, z] => is_count(count, *d) && *z == 0,
        _ => false,
    }
}

/// The number of dynamic sizes, and 0.
pub(crate) fn is_size_count(count: usize, a: &AttrTree) -> bool
    ensures { result ≡ model.is_size_count count (plain_attr a.now) }
{
    match a {
        AttrTree::Ints(width, numbers) => {
            *width == 32 && count_and_zero(count, numbers.as_slice())
        }
        AttrTree::Unit
        | AttrTree::Int(_, _)
        | AttrTree::Str(_)
        | AttrTree::List(_)
        | AttrTree::Dict(_)
        | AttrTree::OfType(_)
        | AttrTree::Symbol(_)
        | AttrTree::Dialect(_, _) => false,
    }
}

fn least_of_32(numbers: &[i64]) -> bool
    ensures { result ≡ model.least_of_32 numbers.now }
{
    match numbers {
        [z] => *z == -2147483648,
        _ => false,
    }
}

/// The list of constant indices that stands for one index that is a value.
pub(crate) fn is_one_index(a: &AttrTree) -> bool
    ensures { result ≡ model.is_one_index (plain_attr a.now) }
{
    match a {
        AttrTree::Ints(width, numbers) => *width == 32 && least_of_32(numbers.as_slice()),
        AttrTree::Unit
        | AttrTree::Int(_, _)
        | AttrTree::Str(_)
        | AttrTree::List(_)
        | AttrTree::Dict(_)
        | AttrTree::OfType(_)
        | AttrTree::Symbol(_)
        | AttrTree::Dialect(_, _) => false,
    }
}
