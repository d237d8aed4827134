//! What a yield or condition passes on, where it may stand.
#![tactic(auto, using(crate::proofs::Opens::opens))]

ghost use Rattle.std.specs.Prelude.{◌≡◌, ◌∷◌};
ghost use Rattle.std.specs.Option.{option_map};
ghost use Rattle.plain_tree.specs.Types.{Int};
ghost use Rattle.rule_model.specs.Forms.{same_all};
ghost use Rattle.rule_model.specs.Types as model;
ghost use Rattle.value_types.specs.Views.{plain_types};
ghost use Rattle.rule_facts.specs.Views.{holder_view};
ghost use Rattle.operand_tests.specs.Tests as tests;

use crate::slices::behind;
use rule_facts::{Holder, shape_of};
use rule_model::Shape;
use tree_model::TypeTree;
use value_types::{is_bit, same_all};

/// Whether the types are those that a yield passes to its holder, none where it may not stand.
fn yields(shape: Option<Shape>, holder: &Holder<'_>, types: &[&TypeTree]) -> Option<bool>
    ensures { result ≡ option_map (same_all (plain_types types.now)) (model.yielded shape (holder_view holder.now)) }
{
    match shape {
        Some(Shape::If | Shape::For | Shape::Switch | Shape::Execute) => {
            Some(same_all(types, holder.results))
        }
        Some(Shape::While) => {
            if holder.region == 1 {
                Some(same_all(types, holder.operands))
            } else {
                None
            }
        }
        _ => None,
    }
}

/// `i1` and the others.
fn bit_and_all(types: &[&TypeTree], others: &[&TypeTree]) -> bool
    ensures { result ≡ same_all (plain_types types.now) (Int 1 ∷ plain_types others.now) }
{
    match types {
        [] => false,
        [t, ..] => is_bit(t) && same_all(behind(types, 1), others),
    }
}

fn conditions(shape: Option<Shape>, holder: &Holder<'_>, types: &[&TypeTree]) -> Option<bool>
    ensures { result ≡ option_map (same_all (plain_types types.now)) (model.conditioned shape (holder_view holder.now)) }
{
    match shape {
        Some(Shape::While) => {
            if holder.region == 0 {
                Some(bit_and_all(types, holder.results))
            } else {
                None
            }
        }
        _ => None,
    }
}

/// Whether the types are those that a yield or condition passes on, none where it may not stand.
pub(crate) fn passes(shape: Shape, holder: &Holder<'_>, types: &[&TypeTree]) -> Option<bool>
    ensures { result ≡ option_map (same_all (plain_types types.now)) (tests.passed_on shape (holder_view holder.now)) }
{
    match shape {
        Shape::Yield => yields(shape_of(holder.name), holder, types),
        Shape::Condition => conditions(shape_of(holder.name), holder, types),
        _ => None,
    }
}

/// The same, and true where nothing is asked.
pub(crate) fn passes_if_asked(
    shape: Shape,
    holder: &Option<Holder<'_>>,
    types: &[&TypeTree],
) -> bool
    ensures { result ≡ model.same_if_asked (tests.asked_at shape (option_map holder_view holder.now)) (plain_types types.now) }
{
    match holder {
        Some(h) => passes(shape, h, types).unwrap_or(true),
        None => true,
    }
}
