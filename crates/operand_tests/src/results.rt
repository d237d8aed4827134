//! Rule `Results`.
#![tactic(auto, using(crate::proofs::Opens::opens))]

ghost use Rattle.std.specs.Prelude.{◌≡◌, [], ◌∷◌};
ghost use Rattle.std.specs.Option.{option_copied, option_map};
ghost use Rattle.plain_tree.specs.Types.{Int, Memref, plain_type};
ghost use Rattle.rule_model.specs.Types as model;
ghost use Rattle.value_types.specs.Views.{plain_types};
ghost use Rattle.rule_facts.specs.Views.{facts_view};

use crate::slices::{
    behind, no_types, one_bit, one_index, one_integer, one_memref, one_number, one_own, one_pointer,
};
use rule_facts::{Facts, part_in};
use rule_model::Shape;
use tree_model::{Dim, TypeTree};
use value_types::{all_value, is_index, is_integer, may_be_dims, same, same_all};

/// One type, that of the first operand.
fn as_first(operands: &[&TypeTree], results: &[&TypeTree]) -> bool
    ensures { result ≡ model.as_operand 0 (plain_types operands.now) (plain_types results.now) }
{
    match (operands, results) {
        ([t, ..], [u]) => same(t, u),
        _ => false,
    }
}

/// One type, that of the second operand.
fn as_second(operands: &[&TypeTree], results: &[&TypeTree]) -> bool
    ensures { result ≡ model.as_operand 1 (plain_types operands.now) (plain_types results.now) }
{
    match operands {
        [] => false,
        _ => as_first(behind(operands, 1), results),
    }
}

fn is_above(width: u32, t: &TypeTree) -> bool
    ensures { result ≡ model.wider (Int width ∷ []) (plain_type t.now ∷ []) }
{
    match t {
        TypeTree::Int(other) => width < *other,
        TypeTree::Index
        | TypeTree::Memref(_, _)
        | TypeTree::Func(_, _)
        | TypeTree::Ptr
        | TypeTree::Void
        | TypeTree::Struct(_)
        | TypeTree::Array(_, _)
        | TypeTree::LlvmFunc(_, _) => false,
    }
}

fn is_wider(t: &TypeTree, u: &TypeTree) -> bool
    ensures { result ≡ model.wider (plain_type t.now ∷ []) (plain_type u.now ∷ []) }
{
    match t {
        TypeTree::Int(width) => is_above(*width, u),
        TypeTree::Index
        | TypeTree::Memref(_, _)
        | TypeTree::Func(_, _)
        | TypeTree::Ptr
        | TypeTree::Void
        | TypeTree::Struct(_)
        | TypeTree::Array(_, _)
        | TypeTree::LlvmFunc(_, _) => false,
    }
}

fn wider(operands: &[&TypeTree], results: &[&TypeTree]) -> bool
    ensures { result ≡ model.wider (plain_types operands.now) (plain_types results.now) }
{
    match (operands, results) {
        ([t], [u]) => is_wider(t, u),
        _ => false,
    }
}

fn is_below(width: u32, t: &TypeTree) -> bool
    ensures { result ≡ model.narrower (Int width ∷ []) (plain_type t.now ∷ []) }
{
    match t {
        TypeTree::Int(other) => *other < width,
        TypeTree::Index
        | TypeTree::Memref(_, _)
        | TypeTree::Func(_, _)
        | TypeTree::Ptr
        | TypeTree::Void
        | TypeTree::Struct(_)
        | TypeTree::Array(_, _)
        | TypeTree::LlvmFunc(_, _) => false,
    }
}

fn is_narrower(t: &TypeTree, u: &TypeTree) -> bool
    ensures { result ≡ model.narrower (plain_type t.now ∷ []) (plain_type u.now ∷ []) }
{
    match t {
        TypeTree::Int(width) => is_below(*width, u),
        TypeTree::Index
        | TypeTree::Memref(_, _)
        | TypeTree::Func(_, _)
        | TypeTree::Ptr
        | TypeTree::Void
        | TypeTree::Struct(_)
        | TypeTree::Array(_, _)
        | TypeTree::LlvmFunc(_, _) => false,
    }
}

fn narrower(operands: &[&TypeTree], results: &[&TypeTree]) -> bool
    ensures { result ≡ model.narrower (plain_types operands.now) (plain_types results.now) }
{
    match (operands, results) {
        ([t], [u]) => is_narrower(t, u),
        _ => false,
    }
}

fn crosses(t: &TypeTree, u: &TypeTree) -> bool
    ensures { result ≡ model.index_and_integer (plain_type t.now ∷ []) (plain_type u.now ∷ []) }
{
    match t {
        TypeTree::Int(_) => is_index(u),
        TypeTree::Index => is_integer(u),
        TypeTree::Memref(_, _)
        | TypeTree::Func(_, _)
        | TypeTree::Ptr
        | TypeTree::Void
        | TypeTree::Struct(_)
        | TypeTree::Array(_, _)
        | TypeTree::LlvmFunc(_, _) => false,
    }
}

/// From `index` to an integer, or back.
fn index_and_integer(operands: &[&TypeTree], results: &[&TypeTree]) -> bool
    ensures { result ≡ model.index_and_integer (plain_types operands.now) (plain_types results.now) }
{
    match (operands, results) {
        ([t], [u]) => crosses(t, u),
        _ => false,
    }
}

fn is_element(memref: &TypeTree, t: &TypeTree) -> bool
    ensures { result ≡ model.element_of (plain_type memref.now ∷ []) (plain_type t.now ∷ []) }
{
    match memref {
        TypeTree::Memref(_, element) => same(t, element.get()),
        TypeTree::Int(_)
        | TypeTree::Index
        | TypeTree::Func(_, _)
        | TypeTree::Ptr
        | TypeTree::Void
        | TypeTree::Struct(_)
        | TypeTree::Array(_, _)
        | TypeTree::LlvmFunc(_, _) => false,
    }
}

fn element_of(operands: &[&TypeTree], results: &[&TypeTree]) -> bool
    ensures { result ≡ model.element_of (plain_types operands.now) (plain_types results.now) }
{
    match (operands, results) {
        ([memref, ..], [t]) => is_element(memref, t),
        _ => false,
    }
}

fn is_recast_of(dims: &[Dim], element: &TypeTree, t: &TypeTree) -> bool
    ensures { result ≡ model.recast_memref (Memref dims.now (plain_type element.now) ∷ []) (plain_type t.now ∷ []) }
{
    match t {
        TypeTree::Memref(others, other) => {
            same(element, other.get()) && may_be_dims(dims, others.as_slice())
        }
        TypeTree::Int(_)
        | TypeTree::Index
        | TypeTree::Func(_, _)
        | TypeTree::Ptr
        | TypeTree::Void
        | TypeTree::Struct(_)
        | TypeTree::Array(_, _)
        | TypeTree::LlvmFunc(_, _) => false,
    }
}

fn is_recast(t: &TypeTree, u: &TypeTree) -> bool
    ensures { result ≡ model.recast_memref (plain_type t.now ∷ []) (plain_type u.now ∷ []) }
{
    match t {
        TypeTree::Memref(dims, element) => is_recast_of(dims.as_slice(), element.get(), u),
        TypeTree::Int(_)
        | TypeTree::Index
        | TypeTree::Func(_, _)
        | TypeTree::Ptr
        | TypeTree::Void
        | TypeTree::Struct(_)
        | TypeTree::Array(_, _)
        | TypeTree::LlvmFunc(_, _) => false,
    }
}

/// Of the same rank and element, each dimension equal or one of the two dynamic.
fn recast_memref(operands: &[&TypeTree], results: &[&TypeTree]) -> bool
    ensures { result ≡ model.recast_memref (plain_types operands.now) (plain_types results.now) }
{
    match (operands, results) {
        ([t], [u]) => is_recast(t, u),
        _ => false,
    }
}

/// The part at the path, where there is one, else one type.
fn part_results(part: Option<&TypeTree>, results: &[&TypeTree]) -> bool
    ensures { result ≡ model.part_results (option_map plain_type (option_copied part.entry)) (plain_types results.now) }
{
    match (part, results) {
        (Some(t), [u]) => same(t, u),
        (Some(_), _) => false,
        (None, _) => results.len() == 1,
    }
}

/// Whether an operation of this shape has the results that it gives.
pub fn results_fit(facts: &Facts<'_>, shape: Shape) -> bool
    ensures { result ≡ model.results_fit (facts_view facts.now) shape }
{
    let operands = facts.operands;
    let results = facts.results;
    match shape {
        Shape::Recast | Shape::FuncCall | Shape::LlvmCall => true,
        Shape::NumberConstant => one_number(results),
        Shape::FlaggedNumbers
        | Shape::TwoNumbers
        | Shape::FlaggedIntegers
        | Shape::TwoIntegers
        | Shape::PutPart => as_first(operands, results),
        Shape::CompareNumbers | Shape::CompareIntegers => one_bit(results),
        Shape::SelectValues | Shape::SelectOwn => as_second(operands, results),
        Shape::Widen => wider(operands, results),
        Shape::NarrowNumber | Shape::NarrowInteger => narrower(operands, results),
        Shape::IndexCast => index_and_integer(operands, results),
        Shape::If | Shape::While | Shape::Switch | Shape::Execute => all_value(results),
        Shape::For => same_all(behind(operands, 3), results),
        Shape::Allocate => one_memref(results),
        Shape::LoadElement => element_of(operands, results),
        Shape::TakeSize | Shape::TakeRank => one_index(results),
        Shape::MemrefCast => recast_memref(operands, results),
        Shape::IntegerConstant | Shape::LoadInteger => one_integer(results),
        Shape::Unset => one_own(results),
        Shape::TakePart => part_results(part_in(facts.props, operands), results),
        Shape::MovePointer => one_pointer(results),
        Shape::Module
        | Shape::FuncFunction
        | Shape::LlvmFunction
        | Shape::FuncReturn
        | Shape::LlvmReturn
        | Shape::Branch
        | Shape::BranchOn
        | Shape::Yield
        | Shape::Condition
        | Shape::Deallocate
        | Shape::StoreElement
        | Shape::StoreInteger => no_types(results),
    }
}
