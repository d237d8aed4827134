//! What becomes of a function whose operations are replaced.

ghost use Rattle.std.specs.Prelude.{◌≡◌, IfOk, OnOk};
ghost use Rattle.plain_tree.specs.Ops.{plain_op};
ghost use Rattle.conversion_model.specs.Conversion as model;
ghost use Rattle.new_numbers.specs.Tables.{Extends, Numbering, numbering_of, supply_of};
ghost use Rattle.unit_views.specs.Modes.{mode_of};
ghost use Rattle.unit_conversion.specs.Converts.{IsMade};

use crate::replaced::{Replacement, replaced};
use block_casts::op_blocks;
use new_numbers::NewNumbers;
use std::alloc::Global;
use tree_model::{NoMemory, OpTree};
use tree_reconcile::reconciled;
use unit_slots::Choices;
use unit_views::Mode;

/// The arguments of blocks in converted types, where the pass converts them.
fn with_blocks(
    alloc: Global,
    bits: u32,
    blocks: bool,
    numbers: &mut NewNumbers,
    f: OpTree,
) -> Result<OpTree, NoMemory>
    ensures extends { OnOk result (Extends (numbering_of numbers.old) (numbering_of numbers.new)) }
    ensures op { IfOk result (λ g. (u : Numbering) → Extends (numbering_of numbers.new) u → plain_op g ≡ model.with_blocks blocks bits (supply_of u) (plain_op f)) }
{
    if blocks {
        let g = op_blocks(alloc, bits, numbers, f)?;
        return Ok(g);
    }
    Ok(f)
}

/// In full mode the function is reconciled.
fn finished(alloc: Global, mode: Mode, f: OpTree) -> Result<OpTree, NoMemory>
    ensures { IfOk result (λ g. plain_op g ≡ model.finished (mode_of mode) (plain_op f)) }
{
    match mode {
        Mode::Partial => Ok(f),
        Mode::Full => {
            let g = reconciled(alloc, f)?;
            Ok(g)
        }
    }
}

/// What is made of a function where these are the choices.
pub(crate) fn made(
    alloc: Global,
    bits: u32,
    mode: Mode,
    blocks: bool,
    chosen: Choices,
    f: &OpTree,
) -> Result<OpTree, NoMemory>
    ensures { IfOk result (λ g. IsMade (mode_of mode) blocks bits chosen (plain_op f.now) (plain_op g)) }
{
    let Replacement { op, mut numbers } = replaced(alloc, chosen, f)?;
    let converted = with_blocks(alloc, bits, blocks, &mut numbers, op)?;
    // Reconciliation is to have the room that they take.
    drop(numbers);
    let g = finished(alloc, mode, converted)?;
    Ok(g)
}
