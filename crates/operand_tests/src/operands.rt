//! Rule `Operands`.
#![tactic(auto, using(crate::proofs::Opens::opens))]

ghost use Rattle.std.specs.Prelude.{◌≡◌, ◌+◌, ◌==◌, ◌&&◌, [], ◌∷◌};
ghost use Rattle.std.specs.Option.{option_copied, option_map};
ghost use Rattle.std.specs.List.{list_all};
ghost use Rattle.plain_tree.specs.Types.{Int, plain_type, same_type};
ghost use Rattle.plain_tree.specs.ValueTypes.{is_value};
ghost use Rattle.rule_model.specs.Types as model;
ghost use Rattle.value_types.specs.Views.{plain_types};
ghost use Rattle.rule_facts.specs.Views.{facts_view, pair_view};
ghost use Rattle.operand_tests.specs.Tests as tests;

use crate::passing::passes_if_asked;
use crate::slices::{
    behind, bit_and_two_own, bit_and_two_values, indices, no_types, one_bit, one_index,
    one_integer, one_memref, one_number, one_own, one_pointer, two_integers, two_numbers,
};
use rule_facts::{Facts, part_in, segments};
use rule_model::Shape;
use tree_model::TypeTree;
use value_types::{
    all_index, all_value, dynamic_count, is_bit, is_index, is_integer, is_number, is_own,
    is_pointer, same,
};

/// As many as the counts say, where they are given.
fn as_counted(counts: Option<(u64, u64)>, types: &[&TypeTree]) -> bool
    ensures { result ≡ model.as_counted (option_map pair_view counts) (plain_types types.now) }
{
    match counts {
        Some((first, second)) => is_sum(types.len() as u64, first, second),
        None => true,
    }
}

fn is_sum(whole: u64, first: u64, second: u64) -> bool
    ensures { result ≡ (whole == first + second) }
{
    whole >= first && whole - first == second
}

/// `i1` and value types, as many as the counts say.
fn bit_and_counted(counts: Option<(u64, u64)>, types: &[&TypeTree]) -> bool
    ensures { result ≡ model.bit_and (λ ts. list_all is_value ts && model.as_counted (option_map pair_view counts) ts) (plain_types types.now) }
{
    match types {
        [] => false,
        [c, ..] => {
            let others = behind(types, 1);
            is_bit(c) && all_value(others) && as_counted(counts, others)
        }
    }
}

/// Two bounds and a step of one type, and the values that are carried.
fn range_and_values(types: &[&TypeTree]) -> bool
    ensures { result ≡ model.range_and_values (plain_types types.now) }
{
    match types {
        [t, u, v, ..] => is_number(t) && same(t, u) && same(t, v) && all_value(behind(types, 3)),
        _ => false,
    }
}

/// The dynamic sizes of a memref of this type, where it is one.
fn sizes_of_one(t: &TypeTree, types: &[&TypeTree]) -> bool
    ensures { result ≡ model.sizes_of (plain_type t.now ∷ []) (plain_types types.now) }
{
    match t {
        TypeTree::Memref(dims, _) => indices(dynamic_count(dims.as_slice()), types),
        TypeTree::Int(_)
        | TypeTree::Index
        | TypeTree::Func(_, _)
        | TypeTree::Ptr
        | TypeTree::Void
        | TypeTree::Struct(_)
        | TypeTree::Array(_, _)
        | TypeTree::LlvmFunc(_, _) => all_index(types),
    }
}

fn sizes_of(results: &[&TypeTree], types: &[&TypeTree]) -> bool
    ensures { result ≡ model.sizes_of (plain_types results.now) (plain_types types.now) }
{
    match results {
        [t] => sizes_of_one(t, types),
        _ => all_index(types),
    }
}

/// A memref, and an index for each of its dimensions.
fn indexed(t: &TypeTree, types: &[&TypeTree]) -> bool
    ensures { result ≡ model.memref_and_indices (plain_type t.now ∷ plain_types types.now) }
{
    match t {
        TypeTree::Memref(dims, _) => indices(dims.len(), types),
        TypeTree::Int(_)
        | TypeTree::Index
        | TypeTree::Func(_, _)
        | TypeTree::Ptr
        | TypeTree::Void
        | TypeTree::Struct(_)
        | TypeTree::Array(_, _)
        | TypeTree::LlvmFunc(_, _) => false,
    }
}

fn memref_and_indices(types: &[&TypeTree]) -> bool
    ensures { result ≡ model.memref_and_indices (plain_types types.now) }
{
    match types {
        [] => false,
        [t, ..] => indexed(t, behind(types, 1)),
    }
}

/// An element, its memref, and an index for each dimension.
fn stored(element: &TypeTree, t: &TypeTree, types: &[&TypeTree]) -> bool
    ensures { result ≡ model.element_and_place (plain_type element.now ∷ plain_type t.now ∷ plain_types types.now) }
{
    match t {
        TypeTree::Memref(dims, inner) => same(element, inner.get()) && indices(dims.len(), types),
        TypeTree::Int(_)
        | TypeTree::Index
        | TypeTree::Func(_, _)
        | TypeTree::Ptr
        | TypeTree::Void
        | TypeTree::Struct(_)
        | TypeTree::Array(_, _)
        | TypeTree::LlvmFunc(_, _) => false,
    }
}

fn element_and_place(types: &[&TypeTree]) -> bool
    ensures { result ≡ model.element_and_place (plain_types types.now) }
{
    match types {
        [element, t, ..] => stored(element, t, behind(types, 2)),
        _ => false,
    }
}

fn ranked(t: &TypeTree, index: &TypeTree) -> bool
    ensures { result ≡ model.memref_and_index (plain_type t.now ∷ plain_type index.now ∷ []) }
{
    match t {
        TypeTree::Memref(dims, _) => !dims.is_empty() && is_index(index),
        TypeTree::Int(_)
        | TypeTree::Index
        | TypeTree::Func(_, _)
        | TypeTree::Ptr
        | TypeTree::Void
        | TypeTree::Struct(_)
        | TypeTree::Array(_, _)
        | TypeTree::LlvmFunc(_, _) => false,
    }
}

/// A memref of rank 1 or more, and `index`.
fn memref_and_index(types: &[&TypeTree]) -> bool
    ensures { result ≡ model.memref_and_index (plain_types types.now) }
{
    match types {
        [t, index] => ranked(t, index),
        _ => false,
    }
}

fn is_part(part: Option<&TypeTree>, t: &TypeTree) -> bool
    ensures { result ≡ tests.is_part (option_map plain_type (option_copied part.entry)) (plain_type t.now) }
{
    match part {
        Some(inner) => same(t, inner),
        None => true,
    }
}

/// A value of the llvm dialect, and the part at the path, where there is one.
fn whole_and_part(part: Option<&TypeTree>, types: &[&TypeTree]) -> bool
    ensures { result ≡ model.whole_and_part (option_map plain_type (option_copied part.entry)) (plain_types types.now) }
{
    match types {
        [t, u] => is_own(t) && is_part(part, u),
        _ => false,
    }
}

fn is_wide(t: &TypeTree) -> bool
    ensures { result ≡ same_type (plain_type t.now) (Int 64) }
{
    match t {
        TypeTree::Int(width) => *width == 64,
        TypeTree::Index
        | TypeTree::Memref(_, _)
        | TypeTree::Func(_, _)
        | TypeTree::Ptr
        | TypeTree::Void
        | TypeTree::Struct(_)
        | TypeTree::Array(_, _)
        | TypeTree::LlvmFunc(_, _) => false,
    }
}

fn pointer_and_number(types: &[&TypeTree]) -> bool
    ensures { result ≡ model.pointer_and_number (plain_types types.now) }
{
    match types {
        [t, u] => is_pointer(t) && is_wide(u),
        _ => false,
    }
}

fn integer_and_pointer(types: &[&TypeTree]) -> bool
    ensures { result ≡ model.integer_and_pointer (plain_types types.now) }
{
    match types {
        [t, u] => is_integer(t) && is_pointer(u),
        _ => false,
    }
}

/// Whether an operation of this shape has the operands that it takes.
pub fn operands_fit(facts: &Facts<'_>, shape: Shape) -> bool
    ensures { result ≡ tests.operands_fit (facts_view facts.now) shape }
{
    let operands = facts.operands;
    match shape {
        Shape::Recast | Shape::FuncCall | Shape::FuncReturn | Shape::LlvmCall | Shape::LlvmReturn =>
            true,
        Shape::FlaggedNumbers | Shape::TwoNumbers | Shape::CompareNumbers => two_numbers(operands),
        Shape::SelectValues => bit_and_two_values(operands),
        Shape::Widen | Shape::NarrowNumber | Shape::NarrowInteger => one_integer(operands),
        Shape::IndexCast => one_number(operands),
        Shape::Branch | Shape::While => all_value(operands),
        Shape::BranchOn => bit_and_counted(segments(facts.props), operands),
        Shape::If => one_bit(operands),
        Shape::For => range_and_values(operands),
        Shape::Switch => one_index(operands),
        Shape::Yield | Shape::Condition => passes_if_asked(shape, &facts.holder, operands),
        Shape::Allocate => sizes_of(facts.results, operands),
        Shape::Deallocate | Shape::TakeRank | Shape::MemrefCast => one_memref(operands),
        Shape::LoadElement => memref_and_indices(operands),
        Shape::StoreElement => element_and_place(operands),
        Shape::TakeSize => memref_and_index(operands),
        Shape::FlaggedIntegers | Shape::TwoIntegers | Shape::CompareIntegers => {
            two_integers(operands)
        }
        Shape::SelectOwn => bit_and_two_own(operands),
        Shape::TakePart => one_own(operands),
        Shape::PutPart => whole_and_part(part_in(facts.props, operands), operands),
        Shape::MovePointer => pointer_and_number(operands),
        Shape::LoadInteger => one_pointer(operands),
        Shape::StoreInteger => integer_and_pointer(operands),
        Shape::Module
        | Shape::FuncFunction
        | Shape::LlvmFunction
        | Shape::NumberConstant
        | Shape::IntegerConstant
        | Shape::Unset
        | Shape::Execute => no_types(operands),
    }
}
