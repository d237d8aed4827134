//! The function that choices make of one.

ghost use Rattle.std.specs.Prelude.{◌≡◌, IfOk};
ghost use Rattle.plain_tree.specs.Ops.{plain_op};
ghost use Rattle.conversion_model.specs.Fresh.{Fresh};
ghost use Rattle.new_numbers.specs.Tables.{Extends, Numbering, numbering_of, supply_of};
ghost use Rattle.unit_writer.specs.Functions.{IsWritten};
ghost use Rattle.unit_writer.specs.Writes.{notes_view};
ghost use Rattle.unit_conversion.specs.Converts.{Replaces};

use copy_uses::uses_followed;
use new_numbers::NewNumbers;
use std::alloc::Global;
use tree_model::{NoMemory, OpTree};
use unit_slots::Choices;
use unit_writer::{Notes, function_written};

/// A function without copies, and the new numbers in it.
#[derive(Drop)]
pub(crate) struct Replacement {
    pub op: OpTree,
    pub numbers: NewNumbers,
}

/// Each operation replaced as chosen. The choices end here.
fn written(
    alloc: Global,
    chosen: Choices,
    f: &OpTree,
    notes: &mut Notes,
) -> Result<OpTree, NoMemory>
    ensures { IfOk result (λ o. IsWritten chosen (plain_op f.now) (notes_view notes.old) (notes_view notes.new) (plain_op o)) }
{
    let op = function_written(alloc, f, &chosen, notes)?;
    Ok(op)
}

/// Each operation replaced as chosen, and copies left out: for any table that extends that of the new numbers, whose
/// numbers are fresh.
pub(crate) fn replaced(alloc: Global, chosen: Choices, f: &OpTree) -> Result<Replacement, NoMemory>
    ensures fresh { IfOk result (λ r. (u : Numbering) → Extends (numbering_of r.numbers) u → Fresh (supply_of u) (plain_op f.now)) }
    ensures op { IfOk result (λ r. Replaces chosen (numbering_of r.numbers) (plain_op f.now) (plain_op r.op)) }
{
    let mut notes = Notes {
        numbers: NewNumbers::of(alloc, f),
        pairs: Vec::new(alloc),
    };
    let alone = written(alloc, chosen, f, &mut notes)?;
    let op = uses_followed(alloc, notes.pairs.as_slice(), alone)?;
    let Notes { numbers, pairs: _ } = notes;
    Ok(Replacement { op, numbers })
}
