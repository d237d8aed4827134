//! Slots of operations one after another.

ghost use Rattle.std.specs.Prelude.{◌≡◌, ℕ, Bool, Some, IfOk, OnOk, [], true};
ghost use Rattle.plain_tree.specs.Ops.{plain_op};
ghost use Rattle.conversion_model.specs.Chosen.{chosen};
ghost use Rattle.conversion_model.specs.Conversion.{Supply};
ghost use Rattle.conversion_model.specs.Targets.{demanded, name_of, shape_of as shape_in};
ghost use Rattle.conversion_target.specs.Targets.{target_of};
ghost use Rattle.row_code.specs.Shapes.{shape_of};
ghost use Rattle.tree_walk.specs.Walks.{plain_ops};
ghost use Rattle.value_types.specs.Views.{type_at};
ghost use Rattle.choice_code.specs.Plain.{plain_or_none, plain_template};
ghost use Rattle.unit_views.specs.Modes.{mode_of};
ghost use Rattle.unit_choices.specs.Answers.{SlotsAre, items_or, pass_of, unlegalised as unlegalised_by};
ghost use Rattle.unit_choices.specs.Memos.{LineOf, Remembers};
ghost use Rattle.unit_choices.specs.Orders.{InOrder};
ghost use Rattle.unit_choices.specs.Separate.{Separate, TakesOwn};
ghost use Rattle.unit_choices.specs.Slotting.{EachSeparate, SlotFor, SlotIs, slot_line};

use crate::by_place::choice;
use crate::choice_tree::ChoiceTree;
use crate::memo::{ShapeLine, remember, remembered, shape_line};
use crate::unlegalised::UnlegalisedTree;
use choice_code::{Pass, chosen as chosen_leaves};
use conversion_model::TemplateTree;
use cut_code::{Cuts, Frames};
use row_code::{Rows, ShapeTree};
use std::alloc::{AllocError, Global};
use std::rc::Rc;
use tree_model::{NoMemory, OpTree};
use unit_slots::Slot;
use unit_views::{Mode, is_demanded, op_shape};
use value_types::ValueTypes;

/// The failure of an operation with that number.
#[tactic(auto, using(unit_views::proofs::Layers::name_at))]
pub fn unlegalised(alloc: Global, number: usize, op: &OpTree) -> Result<UnlegalisedTree, NoMemory>
    ensures { IfOk result (λ e. unlegalised_by e ≡ record { number = number; name = name_of (plain_op op.now) }) }
{
    let Ok(number) = u32::try_from(number) else {
        return Err(AllocError);
    };
    let name = op.name.copy(alloc)?;
    Ok(UnlegalisedTree { number, name })
}

/// A line, for whoever shares it.
fn shared(alloc: Global, line: TemplateTree) -> Result<Rc<TemplateTree>, NoMemory>
    ensures { IfOk result (λ l. l.value ≡ line) }
{
    let line = Rc::new(alloc, line)?;
    Ok(line)
}

fn line_slot(alloc: Global, line: Option<TemplateTree>) -> Result<Slot, NoMemory>
    ensures { IfOk result (λ s. slot_line s ≡ Some (plain_or_none line)) }
{
    match line {
        Some(line) => Ok(Slot::Line(shared(alloc, line)?)),
        None => Ok(Slot::Keeps),
    }
}

/// The slot of a choice. An operation that isn't the function itself has no frame: it becomes what is chosen for its shape.
fn slot_of<R: Rows>(
    alloc: Global,
    pass: &Pass<'_, R>,
    shape: &ShapeTree,
    choice: ChoiceTree,
) -> Result<Slot, NoMemory>
    requires { InOrder pass.now.graph.now (target_of pass.now.target.now) (R.table pass.now.set.now) }
    ensures { IfOk result (λ s. SlotFor (chosen pass.now.bits (target_of pass.now.target.now) (R.table pass.now.set.now) [] (shape_of shape.now)) choice s) }
{
    match choice {
        ChoiceTree::Stays => Ok(Slot::Keeps),
        ChoiceTree::Line(line) => Ok(Slot::Line(shared(alloc, line)?)),
        ChoiceTree::Cuts(cut) => Ok(Slot::Cuts(cut)),
        ChoiceTree::Frames(_) => {
            let line = chosen_leaves(alloc, pass, shape)?;
            let slot = line_slot(alloc, line)?;
            Ok(slot)
        }
    }
}

/// The slot of an operation of this shape, which is demanded; none where it is not legalised.
fn chosen_slot<S: Rows + Cuts + Frames>(
    alloc: Global,
    pass: &Pass<'_, S>,
    mode: Mode,
    types: &ValueTypes<'_>,
    shape: &ShapeTree,
    op: &OpTree,
) -> Result<Option<Slot>, NoMemory>
    requires order { InOrder pass.now.graph.now (target_of pass.now.target.now) (S.table pass.now.set.now) }
    requires own { TakesOwn pass.now.bits (S.table pass.now.set.now) }
    requires seen { shape_of shape.now ≡ shape_in (type_at types.now) (plain_op op.now) }
    requires wanted { demanded (mode_of mode) (target_of pass.now.target.now) (shape_of shape.now) ≡ true }
    ensures { IfOk result (λ s. (blocks : Bool) (new : Supply) (n : ℕ) → Separate (new.row n) (type_at types.now) (plain_op op.now) → SlotIs (pass_of (S.table pass.now.set.now) (target_of pass.now.target.now) (mode_of mode) blocks) pass.now.bits new (type_at types.now) n (plain_op op.now) s) }
{
    let _mode = mode;
    match choice(alloc, pass, types, shape, op)? {
        Some(found) => {
            let slot = slot_of(alloc, pass, shape, found)?;
            Ok(Some(slot))
        }
        None => Ok(None),
    }
}

/// A line that operations of a shape share, which is remembered with it.
fn remembered_line<R: Rows>(
    alloc: Global,
    pass: &Pass<'_, R>,
    mode: Mode,
    shape: ShapeTree,
    line: TemplateTree,
    memo: &mut Vec<ShapeLine>,
) -> Result<Rc<TemplateTree>, NoMemory>
    requires memo { Remembers pass.now.bits (target_of pass.now.target.now) (R.table pass.now.set.now) (mode_of mode) memo.old.items }
    requires line { LineOf pass.now.bits (target_of pass.now.target.now) (R.table pass.now.set.now) (mode_of mode) (shape_of shape) (plain_template line) }
    ensures memo { OnOk result (Remembers pass.now.bits (target_of pass.now.target.now) (R.table pass.now.set.now) (mode_of mode) memo.new.items) }
    ensures line { IfOk result (λ l. l.value ≡ line) }
{
    let own = shared(alloc, line)?;
    let other = own.clone()?;
    remember(pass, mode, shape, other, memo)?;
    Ok(own)
}

/// The slot of an operation whose shape isn't remembered, none where it is demanded and not legalised.
fn new_slot<S: Rows + Cuts + Frames>(
    alloc: Global,
    pass: &Pass<'_, S>,
    mode: Mode,
    types: &ValueTypes<'_>,
    op: &OpTree,
    memo: &mut Vec<ShapeLine>,
) -> Result<Option<Slot>, NoMemory>
    requires order { InOrder pass.now.graph.now (target_of pass.now.target.now) (S.table pass.now.set.now) }
    requires own { TakesOwn pass.now.bits (S.table pass.now.set.now) }
    requires memo { Remembers pass.now.bits (target_of pass.now.target.now) (S.table pass.now.set.now) (mode_of mode) memo.old.items }
    ensures memo { OnOk result (Remembers pass.now.bits (target_of pass.now.target.now) (S.table pass.now.set.now) (mode_of mode) memo.new.items) }
    ensures slot { IfOk result (λ s. (blocks : Bool) (new : Supply) (n : ℕ) → Separate (new.row n) (type_at types.now) (plain_op op.now) → SlotIs (pass_of (S.table pass.now.set.now) (target_of pass.now.target.now) (mode_of mode) blocks) pass.now.bits new (type_at types.now) n (plain_op op.now) s) }
{
    let shape = op_shape(alloc, types, op)?;
    if !is_demanded(pass.target, mode, &shape) {
        return Ok(Some(Slot::Keeps));
    }
    match shape_line(alloc, pass, &shape)? {
        Some(line) => {
            let line = remembered_line(alloc, pass, mode, shape, line, memo)?;
            Ok(Some(Slot::Line(line)))
        }
        None => {
            let slot = chosen_slot(alloc, pass, mode, types, &shape, op)?;
            Ok(slot)
        }
    }
}

/// The slot of an operation, none where it is demanded and not legalised.
fn one_slot<S: Rows + Cuts + Frames>(
    alloc: Global,
    pass: &Pass<'_, S>,
    mode: Mode,
    types: &ValueTypes<'_>,
    op: &OpTree,
    memo: &mut Vec<ShapeLine>,
) -> Result<Option<Slot>, NoMemory>
    requires order { InOrder pass.now.graph.now (target_of pass.now.target.now) (S.table pass.now.set.now) }
    requires own { TakesOwn pass.now.bits (S.table pass.now.set.now) }
    requires memo { Remembers pass.now.bits (target_of pass.now.target.now) (S.table pass.now.set.now) (mode_of mode) memo.old.items }
    ensures memo { OnOk result (Remembers pass.now.bits (target_of pass.now.target.now) (S.table pass.now.set.now) (mode_of mode) memo.new.items) }
    ensures slot { IfOk result (λ s. (blocks : Bool) (new : Supply) (n : ℕ) → Separate (new.row n) (type_at types.now) (plain_op op.now) → SlotIs (pass_of (S.table pass.now.set.now) (target_of pass.now.target.now) (mode_of mode) blocks) pass.now.bits new (type_at types.now) n (plain_op op.now) s) }
{
    if let Some(line) = remembered(pass, mode, types, op, memo.as_slice()) {
        let line = line.clone()?;
        return Ok(Some(Slot::Line(line)));
    }
    let slot = new_slot(alloc, pass, mode, types, op, memo)?;
    Ok(slot)
}

/// The slots of operations that are numbered from 1 on, behind one that isn't looked at; or the first that is demanded and
/// not legalised.
pub fn slots<S: Rows + Cuts + Frames>(
    alloc: Global,
    pass: &Pass<'_, S>,
    mode: Mode,
    types: &ValueTypes<'_>,
    ops: &[&OpTree],
) -> Result<Result<Vec<Slot>, UnlegalisedTree>, NoMemory>
    requires order { InOrder pass.now.graph.now (target_of pass.now.target.now) (S.table pass.now.set.now) }
    requires own { TakesOwn pass.now.bits (S.table pass.now.set.now) }
    ensures { IfOk result (λ r. (blocks : Bool) (new : Supply) → EachSeparate new (type_at types.now) (plain_ops ops.now) → SlotsAre (pass_of (S.table pass.now.set.now) (target_of pass.now.target.now) (mode_of mode) blocks) pass.now.bits new (type_at types.now) (plain_ops ops.now) (items_or r)) }
{
    let mut memo = Vec::new(alloc);
    let mut slots = Vec::new(alloc);
    slots.push(Slot::Keeps)?;
    'each: for (place, op) in ops.iter().enumerate() {
        let Some(slot) = one_slot(alloc, pass, mode, types, op, &mut memo)? else {
            let failed = unlegalised(alloc, place + 1, op)?;
            return Ok(Err(failed));
        };
        slots.push(slot)?;
    }
    Ok(Ok(slots))
}
