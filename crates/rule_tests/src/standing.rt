//! Where a terminator may stand.
#![tactic(auto, using(crate::proofs::Opens::opens))]

ghost use Rattle.std.specs.Prelude.{◌≡◌, Some};
ghost use Rattle.std.specs.Option.{option_map};
ghost use Rattle.rule_model.specs.Control as model;
ghost use Rattle.rule_model.specs.Forms.{is_some_of};
ghost use Rattle.rule_model.specs.Rows as rows;
ghost use Rattle.rule_model.specs.Types.{conditioned, yielded};
ghost use Rattle.rule_facts.specs.Views.{facts_view, holder_view};
ghost use Rattle.rule_tests.specs.Tests as tests;

use crate::successors::no_successors;
use rule_facts::{Facts, Holder, shape_of};
use rule_model::Shape;

/// Whether operations of this shape end a block.
pub(crate) fn ends_block(shape: Shape) -> bool
    ensures { result ≡ rows.ends_block shape }
{
    matches!(
        shape,
        Shape::FuncReturn
            | Shape::LlvmReturn
            | Shape::Branch
            | Shape::BranchOn
            | Shape::Yield
            | Shape::Condition
    )
}

pub(crate) fn is_func_body(shape: Option<Shape>) -> bool
    ensures { result ≡ model.is_func_body shape }
{
    match shape {
        Some(Shape::FuncFunction) => true,
        _ => false,
    }
}

pub(crate) fn is_llvm_body(shape: Option<Shape>) -> bool
    ensures { result ≡ model.is_llvm_body shape }
{
    match shape {
        Some(Shape::LlvmFunction) => true,
        _ => false,
    }
}

fn may_yield(shape: Option<Shape>, holder: &Holder<'_>) -> bool
    ensures { result ≡ is_some_of (yielded shape (holder_view holder.now)) }
{
    match shape {
        Some(Shape::If | Shape::For | Shape::Switch | Shape::Execute) => true,
        Some(Shape::While) => holder.region == 1,
        _ => false,
    }
}

fn may_ask(shape: Option<Shape>, holder: &Holder<'_>) -> bool
    ensures { result ≡ is_some_of (conditioned shape (holder_view holder.now)) }
{
    match shape {
        Some(Shape::While) => holder.region == 0,
        _ => false,
    }
}

fn may_stand_in(shape: Shape, holder: &Holder<'_>) -> bool
    ensures { result ≡ tests.may_stand shape (Some (holder_view holder.now)) }
{
    match shape {
        Shape::FuncReturn => is_func_body(shape_of(holder.name)),
        Shape::LlvmReturn => is_llvm_body(shape_of(holder.name)),
        Shape::Yield => may_yield(shape_of(holder.name), holder),
        Shape::Condition => may_ask(shape_of(holder.name), holder),
        Shape::Branch | Shape::BranchOn => true,
        _ => false,
    }
}

fn may_stand(shape: Shape, holder: &Option<Holder<'_>>) -> bool
    ensures { result ≡ tests.may_stand shape (option_map holder_view holder.now) }
{
    match holder {
        Some(h) => may_stand_in(shape, h),
        None => matches!(shape, Shape::Branch | Shape::BranchOn),
    }
}

fn known_stands_well(facts: &Facts<'_>, shape: Shape) -> bool
    ensures { result ≡ tests.stands_well (facts_view facts.now) (Some shape) }
{
    if ends_block(shape) {
        facts.last && may_stand(shape, &facts.holder)
    } else {
        no_successors(facts.successors)
    }
}

/// A terminator is the last of its block and stands where it may; another known operation has no successors.
pub(crate) fn stands_well(facts: &Facts<'_>, shape: Option<Shape>) -> bool
    ensures { result ≡ tests.stands_well (facts_view facts.now) shape }
{
    match shape {
        Some(known) => known_stands_well(facts, known),
        None => true,
    }
}
