//! What is chosen for a function and each operation in it.

ghost use Rattle.std.specs.Prelude.{◌≡◌, Bool, IfOk, Ok, drop};
ghost use Rattle.plain_tree.specs.Ops.{plain_op};
ghost use Rattle.plain_tree.specs.Values.{types_of as type_in_function};
ghost use Rattle.conversion_model.specs.Conversion.{Supply};
ghost use Rattle.conversion_model.specs.Fresh.{Fresh};
ghost use Rattle.conversion_target.specs.Targets.{target_of};
ghost use Rattle.value_types.specs.Views.{type_at};
ghost use Rattle.unit_views.specs.Modes.{mode_of};
ghost use Rattle.unit_choices.specs.Answers.{Chooses, FramingIs, framing_of as framing_in_choice, pass_of};
ghost use Rattle.unit_choices.specs.Orders.{InOrder};
ghost use Rattle.unit_choices.specs.Separate.{Separate, TakesOwn};

use crate::by_place::choice;
use crate::choice_tree::ChoiceTree;
use crate::slotting::{slots, unlegalised};
use crate::unlegalised::UnlegalisedTree;
use choice_code::Pass;
use cut_code::{Cuts, Frames};
use row_code::Rows;
use std::alloc::Global;
use tree_model::{NoMemory, OpTree};
use tree_walk::operations_of;
use unit_slots::{Choices, Framing};
use unit_views::{Mode, is_demanded, op_shape};
use value_types::{ValueTypes, types_of};

fn framing_of(choice: ChoiceTree) -> Option<Framing>
    ensures { result ≡ framing_in_choice choice }
{
    match choice {
        ChoiceTree::Stays => None,
        ChoiceTree::Line(_) => None,
        ChoiceTree::Cuts(_) => None,
        ChoiceTree::Frames(framing) => Some(framing),
    }
}

/// What is chosen for the function itself.
fn function_framing<S: Rows + Cuts + Frames>(
    alloc: Global,
    pass: &Pass<'_, S>,
    mode: Mode,
    types: &ValueTypes<'_>,
    f: &OpTree,
) -> Result<Result<Option<Framing>, UnlegalisedTree>, NoMemory>
    requires order { InOrder pass.now.graph.now (target_of pass.now.target.now) (S.table pass.now.set.now) }
    requires own { TakesOwn pass.now.bits (S.table pass.now.set.now) }
    ensures { IfOk result (λ r. (blocks : Bool) (new : Supply) → Separate (new.row 0) (type_at types.now) (plain_op f.now) → FramingIs (pass_of (S.table pass.now.set.now) (target_of pass.now.target.now) (mode_of mode) blocks) pass.now.bits new (type_at types.now) (plain_op f.now) r) }
{
    let shape = op_shape(alloc, types, f)?;
    if !is_demanded(pass.target, mode, &shape) {
        return Ok(Ok(None));
    }
    match choice(alloc, pass, types, &shape, f)? {
        Some(found) => Ok(Ok(framing_of(found))),
        None => {
            let failed = unlegalised(alloc, 0, f)?;
            Ok(Err(failed))
        }
    }
}

/// Operations but for the first.
fn behind_first<'b, 'a>(ops: &'b [&'a OpTree]) -> &'b [&'a OpTree]
    ensures { result.now ≡ drop 1 ops.now }
{
    match ops {
        [_, inner @ ..] => inner,
        [] => ops,
    }
}

/// The choices for a function with that frame.
fn with_framing<S: Rows + Cuts + Frames>(
    alloc: Global,
    pass: &Pass<'_, S>,
    mode: Mode,
    types: &ValueTypes<'_>,
    f: &OpTree,
    framing: Option<Framing>,
) -> Result<Result<Choices, UnlegalisedTree>, NoMemory>
    requires order { InOrder pass.now.graph.now (target_of pass.now.target.now) (S.table pass.now.set.now) }
    requires own { TakesOwn pass.now.bits (S.table pass.now.set.now) }
    requires types { type_at types.now ≡ type_in_function (plain_op f.now) }
    ensures { IfOk result (λ r. (blocks : Bool) (new : Supply) → Fresh new (plain_op f.now) → FramingIs (pass_of (S.table pass.now.set.now) (target_of pass.now.target.now) (mode_of mode) blocks) pass.now.bits new (type_at types.now) (plain_op f.now) (Ok framing) → Chooses (pass_of (S.table pass.now.set.now) (target_of pass.now.target.now) (mode_of mode) blocks) pass.now.bits new (plain_op f.now) r) }
{
    let ops = operations_of(alloc, f)?;
    let inner = behind_first(ops.as_slice());
    match slots(alloc, pass, mode, types, inner)? {
        Ok(slots) => Ok(Ok(Choices { framing, slots })),
        Err(failed) => Ok(Err(failed)),
    }
}

/// What is chosen for a function and each operation in it; or the first operation in the order of the text, the function
/// itself before those in it, that the mode demands and that has no derivation.
///
/// `pass.graph` is the graph of `pass.target` and of the set's patterns. Rows that cut take values that are there from
/// their operation alone.
pub fn choices<S: Rows + Cuts + Frames>(
    alloc: Global,
    pass: &Pass<'_, S>,
    mode: Mode,
    f: &OpTree,
) -> Result<Result<Choices, UnlegalisedTree>, NoMemory>
    requires order { InOrder pass.now.graph.now (target_of pass.now.target.now) (S.table pass.now.set.now) }
    requires own { TakesOwn pass.now.bits (S.table pass.now.set.now) }
    ensures { IfOk result (λ r. (blocks : Bool) (new : Supply) → Fresh new (plain_op f.now) → Chooses (pass_of (S.table pass.now.set.now) (target_of pass.now.target.now) (mode_of mode) blocks) pass.now.bits new (plain_op f.now) r) }
{
    let types = types_of(alloc, f)?;
    match function_framing(alloc, pass, mode, &types, f)? {
        Ok(framing) => {
            let chosen = with_framing(alloc, pass, mode, &types, f, framing)?;
            Ok(chosen)
        }
        Err(failed) => Ok(Err(failed)),
    }
}
