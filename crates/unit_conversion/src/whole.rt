//! The conversion of a function.

ghost use Rattle.std.specs.Prelude.{◌≡◌, IfOk};
ghost use Rattle.plain_tree.specs.Ops.{plain_op};
ghost use Rattle.conversion_target.specs.Targets.{target_of};
ghost use Rattle.unit_choices.specs.Answers.{pass_of};
ghost use Rattle.unit_choices.specs.Orders.{InOrder};
ghost use Rattle.unit_choices.specs.Separate.{TakesOwn};
ghost use Rattle.unit_conversion.specs.Converts.{Converts, answer};
ghost use Rattle.unit_views.specs.Modes.{mode_of};

use crate::stages::made;
use choice_code::Pass;
use cut_code::{Cuts, Frames};
use row_code::Rows;
use std::alloc::Global;
use tree_model::{NoMemory, OpTree};
use unit_choices::{UnlegalisedTree, choices};
use unit_views::Mode;

/// What a pass makes of a function, or the first operation that it demands and that has no derivation.
///
/// `pass.graph` is the graph of `pass.target` and of the set's patterns. Rows that cut take values that are there from
/// their operation alone.
pub fn convert<S: Rows + Cuts + Frames>(
    alloc: Global,
    pass: &Pass<'_, S>,
    mode: Mode,
    blocks: bool,
    f: &OpTree,
) -> Result<Result<OpTree, UnlegalisedTree>, NoMemory>
    requires order { InOrder pass.now.graph.now (target_of pass.now.target.now) (S.table pass.now.set.now) }
    requires own { TakesOwn pass.now.bits (S.table pass.now.set.now) }
    ensures { IfOk result (λ r. Converts (pass_of (S.table pass.now.set.now) (target_of pass.now.target.now) (mode_of mode) blocks) pass.now.bits (plain_op f.now) (answer r)) }
{
    match choices(alloc, pass, mode, f)? {
        Err(failed) => Ok(Err(failed)),
        Ok(chosen) => {
            let g = made(alloc, pass.bits, mode, blocks, chosen, f)?;
            Ok(Ok(g))
        }
    }
}
