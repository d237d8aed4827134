//! The choice for an operation, by places of patterns.

ghost use Rattle.std.specs.Prelude.{◌≡◌, IfOk, slice_get};
ghost use Rattle.plain_tree.specs.Ops.{plain_op};
ghost use Rattle.conversion_model.specs.Rows.{Numbers};
ghost use Rattle.conversion_model.specs.Chosen.{chosen};
ghost use Rattle.conversion_model.specs.Choice.{choice as choice_for};
ghost use Rattle.conversion_model.specs.Targets.{shape_of as shape_in};
ghost use Rattle.conversion_target.specs.Targets.{target_of};
ghost use Rattle.row_code.specs.Shapes.{shape_of};
ghost use Rattle.value_types.specs.Views.{type_at};
ghost use Rattle.unit_choices.specs.Choosing.{ChoiceStands, choice_at, choice_by, choice_or_none};
ghost use Rattle.unit_choices.specs.Orders.{InOrder};
ghost use Rattle.unit_choices.specs.Separate.{Separate, TakesOwn};

use crate::choice_tree::ChoiceTree;
use crate::cuts::cut_choice;
use crate::frames::frame_choice;
use choice_code::{Pass, row_leaves};
use cut_code::{Cuts, Frames};
use row_code::{Rows, ShapeTree};
use std::alloc::Global;
use tree_model::{NoMemory, OpTree};
use value_types::ValueTypes;

/// By the row of the pattern at a place, where it is defined and its products are legalised. Of the three kinds of rows
/// a pattern has one.
fn at_place<S: Rows + Cuts + Frames>(
    alloc: Global,
    pass: &Pass<'_, S>,
    types: &ValueTypes<'_>,
    shape: &ShapeTree,
    op: &OpTree,
    place: u32,
) -> Result<Option<ChoiceTree>, NoMemory>
    requires order { InOrder pass.now.graph.now (target_of pass.now.target.now) (S.table pass.now.set.now) }
    requires own { TakesOwn pass.now.bits (S.table pass.now.set.now) }
    requires seen { shape_of shape.now ≡ shape_in (type_at types.now) (plain_op op.now) }
    ensures is { IfOk result (λ c. (new : Numbers) → Separate new (type_at types.now) (plain_op op.now) → choice_or_none new (type_at types.now) c ≡ choice_at pass.now.bits (chosen pass.now.bits (target_of pass.now.target.now) (S.table pass.now.set.now)) new (type_at types.now) (plain_op op.now) place (slice_get (S.table pass.now.set.now) place)) }
    ensures stands { IfOk result (λ c. ChoiceStands (target_of pass.now.target.now) (chosen pass.now.bits (target_of pass.now.target.now) (S.table pass.now.set.now)) (type_at types.now) (plain_op op.now) c) }
{
    if let Some(line) = row_leaves(alloc, pass, place, shape)? {
        return Ok(Some(ChoiceTree::Line(line)));
    }
    if let Some(cut) = cut_choice(alloc, pass, types, op, place)? {
        return Ok(Some(ChoiceTree::Cuts(cut)));
    }
    match frame_choice(alloc, pass, shape, op, place)? {
        Some(framing) => Ok(Some(ChoiceTree::Frames(framing))),
        None => Ok(None),
    }
}

/// By the first of these patterns whose row is defined and whose products are legalised.
fn first_choice<S: Rows + Cuts + Frames>(
    alloc: Global,
    pass: &Pass<'_, S>,
    types: &ValueTypes<'_>,
    shape: &ShapeTree,
    op: &OpTree,
    places: &[u32],
) -> Result<Option<ChoiceTree>, NoMemory>
    requires order { InOrder pass.now.graph.now (target_of pass.now.target.now) (S.table pass.now.set.now) }
    requires own { TakesOwn pass.now.bits (S.table pass.now.set.now) }
    requires seen { shape_of shape.now ≡ shape_in (type_at types.now) (plain_op op.now) }
    ensures is { IfOk result (λ c. (new : Numbers) → Separate new (type_at types.now) (plain_op op.now) → choice_or_none new (type_at types.now) c ≡ choice_by pass.now.bits (S.table pass.now.set.now) (chosen pass.now.bits (target_of pass.now.target.now) (S.table pass.now.set.now)) new (type_at types.now) (plain_op op.now) places.now) }
    ensures stands { IfOk result (λ c. ChoiceStands (target_of pass.now.target.now) (chosen pass.now.bits (target_of pass.now.target.now) (S.table pass.now.set.now)) (type_at types.now) (plain_op op.now) c) }
{
    'each: for place in places {
        if let Some(found) = at_place(alloc, pass, types, shape, op, *place)? {
            return Ok(Some(found));
        }
    }
    Ok(None)
}

/// What replaces an operation, none where it isn't legalised.
pub fn choice<S: Rows + Cuts + Frames>(
    alloc: Global,
    pass: &Pass<'_, S>,
    types: &ValueTypes<'_>,
    shape: &ShapeTree,
    op: &OpTree,
) -> Result<Option<ChoiceTree>, NoMemory>
    requires order { InOrder pass.now.graph.now (target_of pass.now.target.now) (S.table pass.now.set.now) }
    requires own { TakesOwn pass.now.bits (S.table pass.now.set.now) }
    requires seen { shape_of shape.now ≡ shape_in (type_at types.now) (plain_op op.now) }
    ensures is { IfOk result (λ c. (new : Numbers) → Separate new (type_at types.now) (plain_op op.now) → choice_or_none new (type_at types.now) c ≡ choice_for pass.now.bits (target_of pass.now.target.now) (S.table pass.now.set.now) new (type_at types.now) (plain_op op.now)) }
    ensures stands { IfOk result (λ c. ChoiceStands (target_of pass.now.target.now) (chosen pass.now.bits (target_of pass.now.target.now) (S.table pass.now.set.now)) (type_at types.now) (plain_op op.now) c) }
{
    if pass.target.is_legal(shape) {
        return Ok(Some(ChoiceTree::Stays));
    }
    let places = pass.graph.order(&shape.name);
    let found = first_choice(alloc, pass, types, shape, op, places)?;
    Ok(found)
}
