//! Rule `Successors`.
#![tactic(auto, using(crate::proofs::Opens::opens))]

ghost use Rattle.std.specs.Prelude.{◌≡◌, ◌&&◌, [], ◌∷◌, drop, take};
ghost use Rattle.std.specs.Option.{option_map};
ghost use Rattle.rule_model.specs.Control as model;
ghost use Rattle.value_types.specs.Views.{plain_types};
ghost use Rattle.rule_facts.specs.Views.{facts_view, pair_view, target_view, targets_view};

use operand_tests::{behind, front};
use rule_facts::{Facts, Target, segments};
use rule_model::Shape;
use tree_model::TypeTree;
use value_types::same_all;

/// A block that isn't the first of its region, with arguments of these types.
fn may_take(types: &[&TypeTree], target: &Target<'_>) -> bool
    ensures { result ≡ model.may_take (plain_types types.now) (target_view target.now) }
{
    match target.block {
        Some(head) => !target.first && same_all(types, head.args.as_slice()),
        None => false,
    }
}

fn one_successor(types: &[&TypeTree], targets: &[Target<'_>]) -> bool
    ensures { result ≡ model.one_successor (plain_types types.now) (targets_view targets.now) }
{
    match targets {
        [t] => may_take(types, t),
        _ => false,
    }
}

/// Two blocks, of which the first takes so many types and the second the others.
fn may_take_parted(count: usize, types: &[&TypeTree], t: &Target<'_>, u: &Target<'_>) -> bool
    ensures { result ≡ (model.may_take (take count (plain_types types.now)) (target_view t.now) && model.may_take (drop count (plain_types types.now)) (target_view u.now)) }
{
    may_take(front(types, count), t) && may_take(behind(types, count), u)
}

/// Two blocks; the types are parted by the counts, where these are given.
fn may_take_both(
    counts: Option<(u64, u64)>,
    types: &[&TypeTree],
    t: &Target<'_>,
    u: &Target<'_>,
) -> bool
    ensures { result ≡ model.two_successors (option_map pair_view counts) (plain_types types.now) (target_view t.now ∷ target_view u.now ∷ []) }
{
    match counts {
        Some((first, _)) => may_take_parted(first as usize, types, t, u),
        None => !t.first && !u.first,
    }
}

fn two_successors(counts: Option<(u64, u64)>, types: &[&TypeTree], targets: &[Target<'_>]) -> bool
    ensures { result ≡ model.two_successors (option_map pair_view counts) (plain_types types.now) (targets_view targets.now) }
{
    match targets {
        [t, u] => may_take_both(counts, types, t, u),
        _ => false,
    }
}

pub(crate) fn no_successors(targets: &[Target<'_>]) -> bool
    ensures { result ≡ model.no_successors (targets_view targets.now) }
{
    match targets {
        [] => true,
        _ => false,
    }
}

/// Whether an operation of this shape, or an unregistered one, goes on where it may.
pub fn successors_fit(facts: &Facts<'_>, shape: Option<Shape>) -> bool
    ensures { result ≡ model.successors_fit (facts_view facts.now) shape }
{
    match shape {
        Some(Shape::Branch) => one_successor(facts.operands, facts.successors),
        Some(Shape::BranchOn) => two_successors(
            segments(facts.props),
            behind(facts.operands, 1),
            facts.successors,
        ),
        _ => no_successors(facts.successors),
    }
}
