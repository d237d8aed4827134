//! Rule `Terminator`.
#![tactic(auto, using(crate::proofs::Opens::opens))]

ghost use Rattle.std.specs.Prelude.{◌≡◌};
ghost use Rattle.std.specs.Option.{option_copied};
ghost use Rattle.std.specs.List.{list_all};
ghost use Rattle.rule_model.specs.Control as model;
ghost use Rattle.rule_facts.specs.Views.{facts_view, head_view, heads_view, regions_view};
ghost use Rattle.rule_tests.specs.Tests as tests;

use crate::standing::{ends_block, stands_well};
use rule_facts::{Facts, Head, shape_of};
use rule_model::Shape;

/// A block that isn't empty, and doesn't end by a known operation that is no terminator.
fn ends_well(head: &Head<'_>) -> bool
    ensures { result ≡ tests.ends_well (head_view head.now).last }
{
    match head.last {
        Some(name) => match shape_of(name) {
            Some(shape) => ends_block(shape),
            None => true,
        },
        None => false,
    }
}

fn all_end_well(heads: &[Head<'_>]) -> bool
    ensures { result ≡ list_all (λ h. tests.ends_well h.last) (heads_view heads.now) }
{
    for head in heads {
        if !ends_well(head) {
            return false;
        }
    }
    true
}

fn regions_end_well(regions: &[Vec<Head<'_>>]) -> bool
    ensures { result ≡ list_all (list_all (λ h. tests.ends_well h.last)) (regions_view regions.now) }
{
    for region in regions {
        if !all_end_well(region.as_slice()) {
            return false;
        }
    }
    true
}

fn is_yield(shape: Option<Shape>) -> bool
    ensures { result ≡ model.is_yield shape }
{
    match shape {
        Some(Shape::Yield) => true,
        _ => false,
    }
}

fn is_condition(shape: Option<Shape>) -> bool
    ensures { result ≡ model.is_condition shape }
{
    match shape {
        Some(Shape::Condition) => true,
        _ => false,
    }
}

fn ends_by_yield(head: &Head<'_>) -> bool
    ensures { result ≡ tests.ends_by model.is_yield (head_view head.now).last }
{
    match head.last {
        Some(name) => is_yield(shape_of(name)),
        None => false,
    }
}

fn ends_by_condition(head: &Head<'_>) -> bool
    ensures { result ≡ tests.ends_by model.is_condition (head_view head.now).last }
{
    match head.last {
        Some(name) => is_condition(shape_of(name)),
        None => false,
    }
}

fn all_end_by_yield(heads: &[Head<'_>]) -> bool
    ensures { result ≡ tests.each_ends_by model.is_yield (heads_view heads.now) }
{
    for head in heads {
        if !ends_by_yield(head) {
            return false;
        }
    }
    true
}

fn all_end_by_condition(heads: &[Head<'_>]) -> bool
    ensures { result ≡ tests.each_ends_by model.is_condition (heads_view heads.now) }
{
    for head in heads {
        if !ends_by_condition(head) {
            return false;
        }
    }
    true
}

fn regions_end_by_yield(regions: &[Vec<Head<'_>>]) -> bool
    ensures { result ≡ list_all (tests.each_ends_by model.is_yield) (regions_view regions.now) }
{
    for region in regions {
        if !all_end_by_yield(region.as_slice()) {
            return false;
        }
    }
    true
}

/// All blocks of a loop with a condition end by what they are to end by.
fn loop_ends(regions: &[Vec<Head<'_>>]) -> bool
    ensures { result ≡ tests.end_by model.is_condition model.is_yield (regions_view regions.now) }
{
    match regions {
        [] => true,
        [first, rest @ ..] => {
            all_end_by_condition(first.as_slice()) && regions_end_by_yield(rest)
        }
    }
}

/// The blocks in an operation end by what its row names.
fn end_as_named(shape: Option<Shape>, regions: &[Vec<Head<'_>>]) -> bool
    ensures { result ≡ tests.end_as_named shape (regions_view regions.now) }
{
    match shape {
        Some(Shape::If | Shape::For | Shape::Switch) => regions_end_by_yield(regions),
        Some(Shape::While) => loop_ends(regions),
        _ => true,
    }
}

/// Whether blocks end as they are to, and a terminator stands where it may.
pub fn terminators_fit(facts: &Facts<'_>, shape: Option<Shape>) -> bool
    ensures { result ≡ tests.terminators_fit (facts_view facts.now) shape }
{
    regions_end_well(facts.regions)
        && end_as_named(shape, facts.regions)
        && stands_well(facts, shape)
}
