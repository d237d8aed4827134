//! The whole of it.

ghost use Rattle.std.specs.Prelude.{◌≡◌, IfOk, map};
ghost use Rattle.plain_tree.specs.Ops.{plain_func, plain_module};
ghost use Rattle.pass_fold.specs.Views.{failure_view};
ghost use Rattle.lowered_module.specs.Lines as says;
ghost use Rattle.lowered_module.specs.Lines.{lines_text};
ghost use Rattle.lowered_module.specs.Lowered.{IsLowered, lowered_view};
ghost use Rattle.lowered_module.specs.Rising.{AreRising};

use crate::lines::{all_lines, lines_text};
use ordered_diags::merge;
use pass_fold::{FoldedTree, Passes, run_pipeline};
use pipeline_text::Pipeline;
use std::alloc::Global;
use tree_model::{Bytes, ModuleTree, NoMemory};

/// A module behind a pipeline.
#[derive(Drop)]
pub struct LoweredModule {
    /// The module; where a pass failed, as the stage of that pass left it.
    pub module_behind: ModuleTree,
    /// The lines on what failed, each with its line feed. There are none where nothing failed.
    pub lines: Bytes,
    /// Whether a pass failed.
    pub failed: bool,
}

/// The lines on the failures of a fold, ordered by function, pass and line.
fn lines_behind(alloc: Global, folded: &FoldedTree) -> Result<Bytes, NoMemory>
    requires { AreRising 0 (map failure_view folded.now.failures) }
    ensures { IfOk result (λ text. text ≡ lines_text (says.all_lines (map plain_func folded.now.module_behind.funcs) (map failure_view folded.now.failures))) }
{
    let funcs = folded.module_behind.funcs.as_slice();
    let lists = all_lines(alloc, funcs, folded.failures.as_slice())?;
    let lines = merge(alloc, lists)?;
    lines_text(alloc, lines.as_slice())
}

/// What a pipeline makes of a module by these passes, with the lines on what failed. After a refusal, which is want of
/// memory, the module is gone.
pub fn lower_by<P: Passes>(
    alloc: Global,
    passes: &P,
    pipeline: &Pipeline,
    tree: ModuleTree,
) -> Result<LoweredModule, NoMemory>
    ensures { IfOk result (λ r. IsLowered pipeline.now (plain_module tree) (lowered_view r)) }
{
    let folded = run_pipeline(alloc, passes, pipeline, tree)?;
    let lines = lines_behind(alloc, &folded)?;
    let failed = !folded.failures.is_empty();
    Ok(LoweredModule {
        module_behind: folded.module_behind,
        lines,
        failed,
    })
}
