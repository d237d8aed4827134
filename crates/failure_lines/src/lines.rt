//! Both lines.

ghost use Rattle.std.specs.Prelude.{◌≡◌, IfOk};
ghost use Rattle.ordered_diags.specs.Failures.{lines_of};
ghost use Rattle.failure_lines.specs.Units.{failure_of};

use crate::texts::{FailedUnit, error_line, note_line};
use ordered_diags::Diag;
use sqlite_items::Items;
use std::alloc::Global;
use tree_model::{Bytes, NoMemory};

fn line(unit: &FailedUnit<'_>, sequence: u32, text: Bytes) -> Diag
    ensures { result ≡ record { function = unit.now.function; pass = unit.now.pass; sequence = sequence; place = unit.now.operation; text = text } }
{
    Diag {
        function: unit.function,
        pass: unit.pass,
        sequence,
        place: unit.operation,
        text,
    }
}

#[tactic(auto, unfolding(ordered_diags::specs::Failures::lines_of))]
/// The error and the note behind it.
pub fn failure_lines(alloc: Global, unit: &FailedUnit<'_>) -> Result<Items<Diag>, NoMemory>
    ensures { IfOk result (λ ds. ds ≡ lines_of (failure_of unit.now)) }
{
    let mut lines = Items::new(alloc);
    let error = error_line(alloc, unit)?;
    lines.push(line(unit, 0, error))?;
    let note = note_line(alloc, unit)?;
    lines.push(line(unit, 1, note))?;
    Ok(lines)
}
