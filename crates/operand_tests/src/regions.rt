//! Rule `Regions`.
#![tactic(auto, using(crate::proofs::Opens::opens))]

ghost use Rattle.std.specs.Prelude.{◌≡◌, ◌+◌, ◌==◌, ◌||◌, ◌&&◌, [], IfOk, map};
ghost use Rattle.std.specs.Option.{option_copied, option_map};
ghost use Rattle.std.specs.List.{list_all};
ghost use Rattle.plain_tree.specs.Types.{plain_type};
ghost use Rattle.plain_tree.specs.Attrs.{plain_entries};
ghost use Rattle.rule_model.specs.Words.{if_some};
ghost use Rattle.rule_model.specs.Facts.{type_of_function};
ghost use Rattle.rule_model.specs.Forms.{same_all as same_types};
ghost use Rattle.rule_model.specs.Types.{no_types};
ghost use Rattle.rule_model.specs.Parts as model;
ghost use Rattle.value_types.specs.Views.{plain_types};
ghost use Rattle.rule_facts.specs.Views.{facts_view, heads_view, regions_view};

use crate::slices::{behind, no_types};
use rule_facts::{Facts, Head, case_count, function_type};
use rule_model::Shape;
use std::alloc::Global;
use tree_model::{AttrTree, Name, NoMemory, TypeTree};
use value_types::{same, same_all, same_as};

/// One block with arguments of these types.
fn is_block_of(types: &[&TypeTree], heads: &[Head<'_>]) -> bool
    ensures { result ≡ model.is_block_of (plain_types types.now) (heads_view heads.now) }
{
    match heads {
        [h] => same_all(h.args.as_slice(), types),
        _ => false,
    }
}

/// One block without arguments.
fn is_bare_block(heads: &[Head<'_>]) -> bool
    ensures { result ≡ model.is_block_of [] (heads_view heads.now) }
{
    is_block_of(&[], heads)
}

fn no_regions(regions: &[Vec<Head<'_>>]) -> bool
    ensures { result ≡ model.no_regions (regions_view regions.now) }
{
    match regions {
        [] => true,
        _ => false,
    }
}

/// No blocks, or blocks of which the first has arguments of these types, where they are known.
fn is_body_of(inputs: Option<&[TypeTree]>, heads: &[Head<'_>]) -> bool
    ensures { result ≡ model.is_body_of (option_map (map plain_type) (option_copied inputs.entry)) (heads_view heads.now) }
{
    match inputs {
        Some(types) => match heads {
            [] => true,
            [h, ..] => same_as(h.args.as_slice(), types),
        },
        None => true,
    }
}

fn one_body(inputs: Option<&[TypeTree]>, regions: &[Vec<Head<'_>>]) -> bool
    ensures { result ≡ model.one_region (model.is_body_of (option_map (map plain_type) (option_copied inputs.entry))) (regions_view regions.now) }
{
    match regions {
        [r] => is_body_of(inputs, r.as_slice()),
        _ => false,
    }
}

fn inputs_in(t: &TypeTree) -> Option<&[TypeTree]>
    ensures { option_map (map plain_type) (option_copied result) ≡ model.func_inputs (plain_type t.now) }
{
    match t {
        TypeTree::Func(inputs, _) => Some(inputs.as_slice()),
        TypeTree::Int(_)
        | TypeTree::Index
        | TypeTree::Memref(_, _)
        | TypeTree::Ptr
        | TypeTree::Void
        | TypeTree::Struct(_)
        | TypeTree::Array(_, _)
        | TypeTree::LlvmFunc(_, _) => None,
    }
}

fn llvm_inputs_in(t: &TypeTree) -> Option<&[TypeTree]>
    ensures { option_map (map plain_type) (option_copied result) ≡ model.llvm_inputs (plain_type t.now) }
{
    match t {
        TypeTree::LlvmFunc(_, inputs) => Some(inputs.as_slice()),
        TypeTree::Int(_)
        | TypeTree::Index
        | TypeTree::Memref(_, _)
        | TypeTree::Func(_, _)
        | TypeTree::Ptr
        | TypeTree::Void
        | TypeTree::Struct(_)
        | TypeTree::Array(_, _) => None,
    }
}

fn func_inputs(props: &[(Name, AttrTree)]) -> Option<&[TypeTree]>
    ensures { option_map (map plain_type) (option_copied result) ≡ if_some (type_of_function (plain_entries props.now)) model.func_inputs }
{
    match function_type(props) {
        Some(t) => inputs_in(t),
        None => None,
    }
}

fn llvm_inputs(props: &[(Name, AttrTree)]) -> Option<&[TypeTree]>
    ensures { option_map (map plain_type) (option_copied result) ≡ if_some (type_of_function (plain_entries props.now)) model.llvm_inputs }
{
    match function_type(props) {
        Some(t) => llvm_inputs_in(t),
        None => None,
    }
}

/// A first region of one bare block, and a second one, which may be missing where nothing results.
fn two_branches(results: &[&TypeTree], regions: &[Vec<Head<'_>>]) -> bool
    ensures { result ≡ model.two_regions (model.is_block_of []) (λ r. model.is_block_of [] r || (model.has_no_blocks r && no_types (plain_types results.now))) (regions_view regions.now) }
{
    match regions {
        [r, s] => {
            is_bare_block(r.as_slice())
                && (is_bare_block(s.as_slice()) || (s.is_empty() && results.is_empty()))
        }
        _ => false,
    }
}

/// The first bound's type, and those of the values that are carried.
fn is_loop_block(operands: &[&TypeTree], heads: &[Head<'_>]) -> bool
    ensures { result ≡ model.is_block_of (model.loop_args (plain_types operands.now)) (heads_view heads.now) }
{
    match heads {
        [h] => are_loop_args(operands, h.args.as_slice()),
        _ => false,
    }
}

fn are_loop_args(operands: &[&TypeTree], args: &[&TypeTree]) -> bool
    ensures { result ≡ same_types (plain_types args.now) (model.loop_args (plain_types operands.now)) }
{
    match (operands, args) {
        ([], _) => same_all(args, &[]),
        ([t, ..], [arg, ..]) => { same(arg, t) && same_all(behind(args, 1), behind(operands, 3)) }
        _ => false,
    }
}

fn one_loop(operands: &[&TypeTree], regions: &[Vec<Head<'_>>]) -> bool
    ensures { result ≡ model.one_region (model.is_block_of (model.loop_args (plain_types operands.now))) (regions_view regions.now) }
{
    match regions {
        [r] => is_loop_block(operands, r.as_slice()),
        _ => false,
    }
}

fn before_and_after(
    operands: &[&TypeTree],
    results: &[&TypeTree],
    regions: &[Vec<Head<'_>>],
) -> bool
    ensures { result ≡ model.two_regions (model.is_block_of (plain_types operands.now)) (model.is_block_of (plain_types results.now)) (regions_view regions.now) }
{
    match regions {
        [r, s] => is_block_of(operands, r.as_slice()) && is_block_of(results, s.as_slice()),
        _ => false,
    }
}

fn all_bare(regions: &[Vec<Head<'_>>]) -> bool
    ensures { result ≡ list_all (model.is_block_of []) (regions_view regions.now) }
{
    for r in regions {
        if !is_bare_block(r.as_slice()) {
            return false;
        }
    }
    true
}

/// One for the default and one for each case, where the cases are known.
fn as_many_as_cases(cases: Option<usize>, regions: &[Vec<Head<'_>>]) -> bool
    ensures { result ≡ model.as_many_as_cases cases (regions_view regions.now) }
{
    match cases {
        Some(count) => is_one_more(regions.len(), count),
        None => true,
    }
}

fn is_one_more(whole: usize, count: usize) -> bool
    ensures { result ≡ (whole == count + 1) }
{
    whole > count && whole - count == 1
}

fn starts_bare(heads: &[Head<'_>]) -> bool
    ensures { result ≡ model.starts_bare (heads_view heads.now) }
{
    match heads {
        [] => false,
        [h, ..] => no_types(h.args.as_slice()),
    }
}

fn one_bare(regions: &[Vec<Head<'_>>]) -> bool
    ensures { result ≡ model.one_region model.starts_bare (regions_view regions.now) }
{
    match regions {
        [r] => starts_bare(r.as_slice()),
        _ => false,
    }
}

/// Whether an operation of this shape has the regions that it holds, with their first arguments.
pub fn regions_fit(alloc: Global, facts: &Facts<'_>, shape: Shape) -> Result<bool, NoMemory>
    ensures { IfOk result (λ b. b ≡ model.regions_fit (facts_view facts.now) shape) }
{
    let regions = facts.regions;
    Ok(match shape {
        Shape::FuncFunction => one_body(func_inputs(facts.props), regions),
        Shape::LlvmFunction => one_body(llvm_inputs(facts.props), regions),
        Shape::If => two_branches(facts.results, regions),
        Shape::For => one_loop(facts.operands, regions),
        Shape::While => before_and_after(facts.operands, facts.results, regions),
        Shape::Switch => {
            as_many_as_cases(case_count(alloc, facts.props)?, regions) && all_bare(regions)
        }
        Shape::Execute => one_bare(regions),
        _ => no_regions(regions),
    })
}
