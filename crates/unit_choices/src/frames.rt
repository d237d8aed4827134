//! Frames of functions.

ghost use Rattle.std.specs.Prelude.{◌≡◌, ◌∷◌, IfOk, [], slice_get};
ghost use Rattle.plain_tree.specs.Ops.{plain_op};
ghost use Rattle.conversion_model.specs.Chosen.{change_of, chosen};
ghost use Rattle.conversion_model.specs.Choice.{frame_shape as shape_of_frame, framed as framed_by};
ghost use Rattle.conversion_target.specs.Targets.{target_of};
ghost use Rattle.row_code.specs.Shapes.{shape_of};
ghost use Rattle.unit_slots.specs.Slots.{plain_frame};
ghost use Rattle.unit_choices.specs.Choosing.{frame_by, frame_or_none};
ghost use Rattle.unit_choices.specs.Orders.{InOrder};

use crate::entry::entry_steps;
use choice_code::{Pass, is_converted, leaves_on};
use cut_code::{FrameTree, Frames};
use row_code::{Rows, ShapeTree};
use sqlite_items::Items;
use std::alloc::Global;
use tree_model::{NoMemory, OpTree, copy_dict};
use unit_slots::Framing;
use unit_views::first_arguments;

fn frame_shape(alloc: Global, frame: &FrameTree) -> Result<ShapeTree, NoMemory>
    ensures { IfOk result (λ s. shape_of s ≡ shape_of_frame (plain_frame frame.now)) }
{
    let name = frame.name.copy(alloc)?;
    let props = copy_dict(alloc, frame.props.as_slice())?;
    let attrs = copy_dict(alloc, frame.attrs.as_slice())?;
    Ok(ShapeTree {
        name,
        operands: Items::new(alloc),
        results: Items::new(alloc),
        props,
        attrs,
        successors: 0,
        regions: 1,
    })
}

/// A frame with the steps at its start, where what it makes is legalised by patterns that are not on the path.
fn framed<R: Rows>(
    alloc: Global,
    pass: &Pass<'_, R>,
    path: &[u32],
    converted: bool,
    op: &OpTree,
    frame: FrameTree,
) -> Result<Option<Framing>, NoMemory>
    requires { InOrder pass.now.graph.now (target_of pass.now.target.now) (R.table pass.now.set.now) }
    ensures { IfOk result (λ f. frame_or_none f ≡ framed_by (change_of pass.now.bits converted) (chosen pass.now.bits (target_of pass.now.target.now) (R.table pass.now.set.now) path.now) (plain_op op.now) (plain_frame frame)) }
{
    let shape = frame_shape(alloc, &frame)?;
    if leaves_on(alloc, pass, path, &shape)?.is_none() {
        return Ok(None);
    }
    let args = first_arguments(op);
    let parts = frame.entry.as_slice();
    match entry_steps(alloc, pass, path, converted, args, parts)? {
        Some(entry) => Ok(Some(Framing { frame, entry })),
        None => Ok(None),
    }
}

/// The frame of the row at a place, where there is one and what it makes is legalised.
pub fn frame_choice<S: Rows + Frames>(
    alloc: Global,
    pass: &Pass<'_, S>,
    shape: &ShapeTree,
    op: &OpTree,
    place: u32,
) -> Result<Option<Framing>, NoMemory>
    requires { InOrder pass.now.graph.now (target_of pass.now.target.now) (S.table pass.now.set.now) }
    ensures { IfOk result (λ f. frame_or_none f ≡ frame_by pass.now.bits (chosen pass.now.bits (target_of pass.now.target.now) (S.table pass.now.set.now) (place ∷ [])) (plain_op op.now) (shape_of shape.now) (slice_get (S.table pass.now.set.now) place)) }
{
    let Some(frame) = pass.set.frame(alloc, pass.bits, place, shape)? else {
        return Ok(None);
    };
    let converted = is_converted(pass.set.infos(), place);
    let framing = framed(alloc, pass, &[place], converted, op, frame)?;
    Ok(framing)
}
