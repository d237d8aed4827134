//! A pipeline over a module.

ghost use Rattle.std.specs.Prelude.{IfOk};
ghost use Rattle.plain_tree.specs.Ops.{plain_module};
ghost use Rattle.lowered_module.specs.Lowered.{IsLowered, lowered_view};

use crate::passes::UnitPasses;
use lowered_module::{LoweredModule, lower_by};
use pipeline_text::Pipeline;
use std::alloc::Global;
use tree_model::{ModuleTree, NoMemory};

/// What a pipeline makes of a module, with the lines on what failed. After a refusal, which is want of memory, the module
/// is gone.
pub fn lower(
    alloc: Global,
    pipeline: &Pipeline,
    tree: ModuleTree,
) -> Result<LoweredModule, NoMemory>
    ensures { IfOk result (λ r. IsLowered pipeline.now (plain_module tree) (lowered_view r)) }
{
    let passes = UnitPasses::of(alloc, pipeline)?;
    lower_by(alloc, &passes, pipeline, tree)
}
