//! Leaves behind patterns that stand on a path.

ghost use Rattle.std.specs.Prelude.{◌≡◌, ◌∷◌, ℕ, List, None, Option, Some, IfOk, [], map, slice_get, if◌then◌else◌};
ghost use Rattle.conversion_model.specs.Chosen.{Ending, Ranked, chosen as chosen_leaves, order, products as all_products};
ghost use Rattle.conversion_target.specs.Targets.{target_of};
ghost use Rattle.legal_graph.specs.Graphs.{order_in_graph};
ghost use Rattle.choice_code.specs.Choosing.{by_row_at};
ghost use Rattle.choice_code.specs.Drafts.{behind, done_of, going_on, state_of};
ghost use Rattle.choice_code.specs.Plain.{plain_or_none, plain_step};
ghost use Rattle.row_code.specs.Shapes.{shape_of};

use crate::derivation::{Pass, by_pattern, chosen_within, levels, products};
use crate::draft::Draft;
use conversion_model::{StepTree, TemplateTree};
use row_code::{Rows, ShapeTree};
use std::alloc::Global;
use tree_model::NoMemory;

/// The leaves of the chosen derivation of an operation by patterns that are not on the path.
pub fn leaves_on<R: Rows>(
    alloc: Global,
    pass: &Pass<'_, R>,
    path: &[u32],
    shape: &ShapeTree,
) -> Result<Option<TemplateTree>, NoMemory>
    requires { (name : List ℕ) → order_in_graph pass.now.graph.now name ≡ map (λ (r : Ranked). r.place) (order (target_of pass.now.target.now) (R.table pass.now.set.now) name) }
    ensures { IfOk result (λ t. plain_or_none t ≡ chosen_leaves pass.now.bits (target_of pass.now.target.now) (R.table pass.now.set.now) path.now (shape_of shape.now)) }
{
    let room = levels(pass.set.infos())?;
    let found = chosen_within(alloc, pass, room, path, shape)?;
    Ok(found)
}

/// The template of the straight row at a place, with the leaves of its products by patterns other than that one.
pub fn row_leaves<R: Rows>(
    alloc: Global,
    pass: &Pass<'_, R>,
    place: u32,
    shape: &ShapeTree,
) -> Result<Option<TemplateTree>, NoMemory>
    requires { (name : List ℕ) → order_in_graph pass.now.graph.now name ≡ map (λ (r : Ranked). r.place) (order (target_of pass.now.target.now) (R.table pass.now.set.now) name) }
    ensures { IfOk result (λ t. plain_or_none t ≡ by_row_at pass.now.bits (chosen_leaves pass.now.bits (target_of pass.now.target.now) (R.table pass.now.set.now) (place ∷ [])) (shape_of shape.now) (slice_get (R.table pass.now.set.now) place)) }
{
    let room = levels(pass.set.infos())?;
    let found = by_pattern(alloc, pass, room, &[], shape, place)?;
    Ok(found)
}

/// The leaves of each product in order by patterns that are not on the path, as far as all are legalised.
pub fn products_on<R: Rows>(
    alloc: Global,
    pass: &Pass<'_, R>,
    path: &[u32],
    steps: &[StepTree],
    draft: &mut Draft,
) -> Result<bool, NoMemory>
    requires { (name : List ℕ) → order_in_graph pass.now.graph.now name ≡ map (λ (r : Ranked). r.place) (order (target_of pass.now.target.now) (R.table pass.now.set.now) name) }
    ensures { IfOk result (λ good. (last : Ending) → behind (done_of draft.old) (all_products (chosen_leaves pass.now.bits (target_of pass.now.target.now) (R.table pass.now.set.now) path.now) last (map plain_step steps.now) (state_of draft.old)) ≡ (if good then going_on draft.new last else None)) }
{
    let room = levels(pass.set.infos())?;
    let good = products(alloc, pass, room, path, steps, draft)?;
    Ok(good)
}
