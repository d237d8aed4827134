//! Rule `Attribute`.
#![tactic(auto, using(crate::proofs::Opens::opens))]

ghost use Rattle.std.specs.Prelude.{◌≡◌, [], ◌∷◌, IfOk, codes, not};
ghost use Rattle.plain_tree.specs.Types.{plain_type};
ghost use Rattle.plain_tree.specs.Attrs.{entry, plain_attr, plain_entries};
ghost use Rattle.rule_model.specs.Forms as model;
ghost use Rattle.rule_model.specs.Parts as parts;
ghost use Rattle.value_types.specs.Views.{plain_types};
ghost use Rattle.rule_facts.specs.Views.{facts_view};
ghost use Rattle.attribute_tests.specs.Tests as tests;

use crate::forms::{
    is_alignment, is_dict_list, is_flags, is_func_type, is_index_integer, is_integer_of,
    is_integer_type, is_linkage, is_llvm_func_type, is_one_index, is_predicate, is_size_count,
    is_symbol, is_text, is_truth, is_unit,
};
use rule_facts::{Facts, distinct_count, entry, part_by, two_counts};
use rule_model::Shape;
use std::alloc::Global;
use tree_model::{AttrTree, Name, NoMemory, TypeTree};
use value_types::{dims_of, dynamic_count};

fn needs_text(name: &[u8], props: &[(Name, AttrTree)]) -> bool
    ensures { result ≡ tests.needed model.is_text (entry name.now (plain_entries props.now)) }
{
    match entry(name, props) {
        Some(a) => is_text(a),
        None => false,
    }
}

fn may_text(name: &[u8], props: &[(Name, AttrTree)]) -> bool
    ensures { result ≡ tests.optional model.is_text (entry name.now (plain_entries props.now)) }
{
    match entry(name, props) {
        Some(a) => is_text(a),
        None => true,
    }
}

fn may_dicts(name: &[u8], props: &[(Name, AttrTree)]) -> bool
    ensures { result ≡ tests.optional model.is_dict_list (entry name.now (plain_entries props.now)) }
{
    match entry(name, props) {
        Some(a) => is_dict_list(a),
        None => true,
    }
}

fn needs_func_type(props: &[(Name, AttrTree)]) -> bool
    ensures { result ≡ tests.needed model.is_func_type (entry (codes "function_type") (plain_entries props.now)) }
{
    match entry(b"function_type", props) {
        Some(a) => is_func_type(a),
        None => false,
    }
}

fn needs_llvm_func_type(props: &[(Name, AttrTree)]) -> bool
    ensures { result ≡ tests.needed model.is_llvm_func_type (entry (codes "function_type") (plain_entries props.now)) }
{
    match entry(b"function_type", props) {
        Some(a) => is_llvm_func_type(a),
        None => false,
    }
}

fn may_linkage(props: &[(Name, AttrTree)]) -> bool
    ensures { result ≡ tests.optional model.is_linkage (entry (codes "linkage") (plain_entries props.now)) }
{
    match entry(b"linkage", props) {
        Some(a) => is_linkage(a),
        None => true,
    }
}

fn needs_symbol(props: &[(Name, AttrTree)]) -> bool
    ensures { result ≡ tests.needed model.is_symbol (entry (codes "callee") (plain_entries props.now)) }
{
    match entry(b"callee", props) {
        Some(a) => is_symbol(a),
        None => false,
    }
}

fn may_flags(dialect: &[u8], props: &[(Name, AttrTree)]) -> bool
    ensures { result ≡ tests.optional (model.is_flags dialect.now) (entry (codes "overflowFlags") (plain_entries props.now)) }
{
    match entry(b"overflowFlags", props) {
        Some(a) => is_flags(dialect, a),
        None => true,
    }
}

fn needs_predicate(props: &[(Name, AttrTree)]) -> bool
    ensures { result ≡ tests.needed model.is_predicate (entry (codes "predicate") (plain_entries props.now)) }
{
    match entry(b"predicate", props) {
        Some(a) => is_predicate(a),
        None => false,
    }
}

fn may_unit(props: &[(Name, AttrTree)]) -> bool
    ensures { result ≡ tests.optional model.is_unit (entry (codes "no_inline") (plain_entries props.now)) }
{
    match entry(b"no_inline", props) {
        Some(a) => is_unit(a),
        None => true,
    }
}

fn may_alignment(props: &[(Name, AttrTree)]) -> bool
    ensures { result ≡ tests.optional model.is_alignment (entry (codes "alignment") (plain_entries props.now)) }
{
    match entry(b"alignment", props) {
        Some(a) => is_alignment(a),
        None => true,
    }
}

fn may_truth(props: &[(Name, AttrTree)]) -> bool
    ensures { result ≡ tests.optional model.is_truth (entry (codes "nontemporal") (plain_entries props.now)) }
{
    match entry(b"nontemporal", props) {
        Some(a) => is_truth(a),
        None => true,
    }
}

fn needs_integer_type(props: &[(Name, AttrTree)]) -> bool
    ensures { result ≡ tests.needed model.is_integer_type (entry (codes "elem_type") (plain_entries props.now)) }
{
    match entry(b"elem_type", props) {
        Some(a) => is_integer_type(a),
        None => false,
    }
}

fn needs_one_index(props: &[(Name, AttrTree)]) -> bool
    ensures { result ≡ tests.needed model.is_one_index (entry (codes "rawConstantIndices") (plain_entries props.now)) }
{
    match entry(b"rawConstantIndices", props) {
        Some(a) => is_one_index(a),
        None => false,
    }
}

fn is_two_counts(a: &AttrTree) -> bool
    ensures { result ≡ model.is_some_of (model.two_counts (plain_attr a.now)) }
{
    match two_counts(a) {
        Some(_) => true,
        None => false,
    }
}

fn needs_two_counts(props: &[(Name, AttrTree)]) -> bool
    ensures { result ≡ tests.needed (λ a. model.is_some_of (model.two_counts a)) (entry (codes "operandSegmentSizes") (plain_entries props.now)) }
{
    match entry(b"operandSegmentSizes", props) {
        Some(a) => is_two_counts(a),
        None => false,
    }
}

fn is_distinct(alloc: Global, a: &AttrTree) -> Result<bool, NoMemory>
    ensures { IfOk result (λ b. b ≡ model.is_some_of (model.distinct_count (plain_attr a.now))) }
{
    match distinct_count(alloc, a)? {
        Some(_) => Ok(true),
        None => Ok(false),
    }
}

fn needs_cases(alloc: Global, props: &[(Name, AttrTree)]) -> Result<bool, NoMemory>
    ensures { IfOk result (λ b. b ≡ tests.needed (λ a. model.is_some_of (model.distinct_count a)) (entry (codes "cases") (plain_entries props.now))) }
{
    match entry(b"cases", props) {
        Some(a) => is_distinct(alloc, a),
        None => Ok(false),
    }
}

/// An integer of the result's type.
fn is_value_of(results: &[&TypeTree], a: &AttrTree) -> bool
    ensures { result ≡ parts.is_value_of (plain_types results.now) (plain_attr a.now) }
{
    match results {
        [] => true,
        [t, ..] => is_integer_of(t, a),
    }
}

fn needs_value(results: &[&TypeTree], props: &[(Name, AttrTree)]) -> bool
    ensures { result ≡ tests.needed (parts.is_value_of (plain_types results.now)) (entry (codes "value") (plain_entries props.now)) }
{
    match entry(b"value", props) {
        Some(a) => is_value_of(results, a),
        None => false,
    }
}

fn needs_value_or_index(results: &[&TypeTree], props: &[(Name, AttrTree)]) -> bool
    ensures { result ≡ tests.needed (parts.is_value_or_index_of (plain_types results.now)) (entry (codes "value") (plain_entries props.now)) }
{
    match entry(b"value", props) {
        Some(a) => is_value_of(results, a) || is_index_integer(a),
        None => false,
    }
}

fn dynamic_sizes(t: &TypeTree) -> Option<usize>
    ensures { result ≡ parts.sizes_in (plain_type t.now ∷ []) }
{
    match dims_of(t) {
        Some(dims) => Some(dynamic_count(dims)),
        None => None,
    }
}

fn sizes_in(results: &[&TypeTree]) -> Option<usize>
    ensures { result ≡ parts.sizes_in (plain_types results.now) }
{
    match results {
        [] => None,
        [t, ..] => dynamic_sizes(t),
    }
}

fn counts_sizes(sizes: Option<usize>, a: &AttrTree) -> bool
    ensures { result ≡ parts.counts_sizes sizes (plain_attr a.now) }
{
    match sizes {
        Some(count) => is_size_count(count, a),
        None => true,
    }
}

fn needs_sizes(results: &[&TypeTree], props: &[(Name, AttrTree)]) -> bool
    ensures { result ≡ tests.needed (parts.counts_sizes (parts.sizes_in (plain_types results.now))) (entry (codes "operandSegmentSizes") (plain_entries props.now)) }
{
    match entry(b"operandSegmentSizes", props) {
        Some(a) => counts_sizes(sizes_in(results), a),
        None => false,
    }
}

fn is_found(t: &TypeTree, a: &AttrTree) -> bool
    ensures { result ≡ model.is_some_of (model.part_by (plain_type t.now) (plain_attr a.now)) }
{
    match part_by(t, a) {
        Some(_) => true,
        None => false,
    }
}

fn finds_part(operands: &[&TypeTree], a: &AttrTree) -> bool
    ensures { result ≡ model.finds_part (plain_types operands.now) (plain_attr a.now) }
{
    match operands {
        [] => true,
        [t, ..] => is_found(t, a),
    }
}

fn needs_path(operands: &[&TypeTree], props: &[(Name, AttrTree)]) -> bool
    ensures { result ≡ tests.needed (model.finds_part (plain_types operands.now)) (entry (codes "position") (plain_entries props.now)) }
{
    match entry(b"position", props) {
        Some(a) => finds_part(operands, a),
        None => false,
    }
}

fn lacks_unsigned(props: &[(Name, AttrTree)]) -> bool
    ensures { result ≡ not (model.is_some_of (entry (codes "unsignedCmp") (plain_entries props.now))) }
{
    match entry(b"unsignedCmp", props) {
        Some(_) => false,
        None => true,
    }
}

fn of_function(props: &[(Name, AttrTree)]) -> bool
    ensures { result ≡ tests.of_function (plain_entries props.now) }
{
    needs_func_type(props)
        && needs_text(b"sym_name", props)
        && may_text(b"sym_visibility", props)
        && may_dicts(b"arg_attrs", props)
        && may_dicts(b"res_attrs", props)
}

fn of_llvm_function(props: &[(Name, AttrTree)]) -> bool
    ensures { result ≡ tests.of_llvm_function (plain_entries props.now) }
{
    needs_llvm_func_type(props)
        && needs_text(b"sym_name", props)
        && may_linkage(props)
        && may_text(b"sym_visibility", props)
}

fn of_others(facts: &Facts<'_>, shape: Shape) -> bool
    ensures { result ≡ tests.of_others (facts_view facts.now) shape }
{
    let props = facts.props;
    match shape {
        Shape::Module => may_text(b"sym_name", props) && may_text(b"sym_visibility", props),
        Shape::FuncFunction => of_function(props),
        Shape::LlvmFunction => of_llvm_function(props),
        Shape::FuncCall | Shape::LlvmCall => needs_symbol(props),
        Shape::NumberConstant => needs_value(facts.results, props),
        Shape::IntegerConstant => needs_value_or_index(facts.results, props),
        Shape::FlaggedNumbers | Shape::NarrowNumber => may_flags(b"arith.overflow", props),
        Shape::FlaggedIntegers | Shape::NarrowInteger => may_flags(b"llvm.overflow", props),
        Shape::CompareNumbers | Shape::CompareIntegers => needs_predicate(props),
        Shape::BranchOn => needs_two_counts(props),
        Shape::Execute => may_unit(props),
        Shape::Allocate => needs_sizes(facts.results, props) && may_alignment(props),
        Shape::LoadElement | Shape::StoreElement => may_truth(props),
        Shape::TakePart | Shape::PutPart => needs_path(facts.operands, props),
        Shape::MovePointer => needs_integer_type(props) && needs_one_index(props),
        Shape::For => lacks_unsigned(props),
        _ => true,
    }
}

/// Whether an operation of this shape has the properties that it needs, each in its form.
pub fn attributes_fit(alloc: Global, facts: &Facts<'_>, shape: Shape) -> Result<bool, NoMemory>
    ensures { IfOk result (λ b. b ≡ parts.attributes_fit (facts_view facts.now) shape) }
{
    match shape {
        Shape::Switch => needs_cases(alloc, facts.props),
        _ => Ok(of_others(facts, shape)),
    }
}
