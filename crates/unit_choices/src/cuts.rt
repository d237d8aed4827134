//! Cuts of blocks.

ghost use Rattle.std.specs.Prelude.{◌≡◌, ◌∷◌, IfOk, [], slice_get};
ghost use Rattle.plain_tree.specs.Ops.{plain_op};
ghost use Rattle.conversion_model.specs.Rows.{Numbers};
ghost use Rattle.conversion_model.specs.Chosen.{chosen};
ghost use Rattle.conversion_target.specs.Targets.{target_of};
ghost use Rattle.cut_code.specs.Pieces.{cutting_at};
ghost use Rattle.value_types.specs.Views.{type_at};
ghost use Rattle.unit_choices.specs.Choosing.{CutIs, cut_by, cut_or_none};
ghost use Rattle.unit_choices.specs.Orders.{InOrder};
ghost use Rattle.unit_choices.specs.Separate.{Separate, TakesOwn};

use crate::products::lines;
use choice_code::Pass;
use cut_code::Cuts;
use row_code::Rows;
use std::alloc::Global;
use tree_model::{NoMemory, OpTree};
use unit_slots::CutTree;
use unit_views::op_sketch;
use value_types::ValueTypes;

/// The pieces of the row at a place with their lines, where there are pieces and each product is legalised.
pub fn cut_choice<S: Rows + Cuts>(
    alloc: Global,
    pass: &Pass<'_, S>,
    types: &ValueTypes<'_>,
    op: &OpTree,
    place: u32,
) -> Result<Option<CutTree>, NoMemory>
    requires order { InOrder pass.now.graph.now (target_of pass.now.target.now) (S.table pass.now.set.now) }
    requires own { TakesOwn pass.now.bits (S.table pass.now.set.now) }
    ensures is { IfOk result (λ c. (new : Numbers) → Separate new (type_at types.now) (plain_op op.now) → cut_or_none new (type_at types.now) c ≡ cut_by (chosen pass.now.bits (target_of pass.now.target.now) (S.table pass.now.set.now) (place ∷ [])) place (cutting_at pass.now.bits (slice_get (S.table pass.now.set.now) place) new (type_at types.now) (plain_op op.now))) }
    ensures stands { IfOk result (λ c. CutIs (target_of pass.now.target.now) (chosen pass.now.bits (target_of pass.now.target.now) (S.table pass.now.set.now)) (type_at types.now) (plain_op op.now) c) }
{
    let sketch = op_sketch(alloc, op)?;
    let Some(pieces) = pass.set.cut(alloc, pass.bits, place, &sketch)? else {
        return Ok(None);
    };
    match lines(alloc, pass, types, &[place], pieces.as_slice())? {
        Some(lines) => Ok(Some(CutTree {
            place,
            pieces,
            lines,
        })),
        None => Ok(None),
    }
}
