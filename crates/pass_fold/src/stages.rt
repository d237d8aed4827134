//! Stages, and the whole pipeline.

ghost use Rattle.std.specs.Prelude.{◌≡◌, [], ◌∷◌, IfOk, OnOk, map};
ghost use Rattle.plain_tree.specs.Ops.{plain_func, plain_module};
ghost use Rattle.fold_model.specs.FreshFolds.{IsFold};
ghost use Rattle.pass_fold.specs.Views.{folded_view};
ghost use Rattle.pass_fold.specs.Whole.{StageIs};
ghost use Rattle.pipeline_text.specs.declared.pass.Stage.TheVariants.{Each, Whole};

use crate::failure::FailureList;
use crate::functions::{StoodTree, run_functions};
use crate::passes::Passes;
use crate::widths::width_of;
use allocators::module_step;
use pipeline_text::{Anchor, PassUse, Pipeline, Stage};
use std::alloc::Global;
use tree_model::{ModuleTree, NoMemory};

/// A module behind a pipeline, and the failures of the stage at which it stopped.
#[derive(Debug, Drop)]
pub struct FoldedTree {
    pub module_behind: ModuleTree,
    pub failures: FailureList,
}

/// A pass on every function, and, where none fails, its step on the module; where one fails the module stays as it is.
fn run_whole<P: Passes>(
    alloc: Global,
    passes: &P,
    bits: u32,
    used: PassUse,
    tree: &mut ModuleTree,
) -> Result<FailureList, NoMemory>
    ensures { IfOk result (λ es. StageIs bits (Whole used) tree.old tree.new es) }
{
    let before = tree.funcs.as_slice();
    let StoodTree { funcs, failures } = run_functions(alloc, passes, bits, None, &[used], before)?;
    if !failures.is_empty() {
        return Ok(failures);
    }
    tree.funcs = funcs;
    module_step(alloc, used.pass, tree)?;
    Ok(failures)
}

/// Passes on the functions of one name.
fn run_each<P: Passes>(
    alloc: Global,
    passes: &P,
    bits: u32,
    anchor: Anchor,
    uses: &[PassUse],
    tree: &mut ModuleTree,
) -> Result<FailureList, NoMemory>
    ensures { IfOk result (λ es. StageIs bits (Each anchor uses.now) tree.old tree.new es) }
{
    let funcs = tree.funcs.as_slice();
    let stood = run_functions(alloc, passes, bits, Some(anchor), uses, funcs)?;
    let StoodTree { funcs, failures } = stood;
    tree.funcs = funcs;
    Ok(failures)
}

fn run_stage<P: Passes>(
    alloc: Global,
    passes: &P,
    bits: u32,
    stage: &Stage,
    tree: &mut ModuleTree,
) -> Result<FailureList, NoMemory>
    ensures { IfOk result (λ es. StageIs bits stage.now tree.old tree.new es) }
{
    match stage {
        Stage::Whole(used) => run_whole(alloc, passes, bits, *used, tree),
        Stage::Each(anchor, uses) => run_each(alloc, passes, bits, *anchor, uses.as_slice(), tree),
    }
}

/// What a pipeline makes of a module: its stages in order, up to the first with a failure. After a refusal, which is want
/// of memory, the module is gone.
pub fn run_pipeline<P: Passes>(
    alloc: Global,
    passes: &P,
    pipeline: &Pipeline,
    tree: ModuleTree,
) -> Result<FoldedTree, NoMemory>
    ensures { IfOk result (λ r. IsFold pipeline.now (plain_module tree) (folded_view r)) }
{
    let stages = pipeline.stages.as_slice();
    let bits = width_of(stages);
    let mut module_behind = tree;
    'each: for stage in stages {
        let failures = run_stage(alloc, passes, bits, stage, &mut module_behind)?;
        if !failures.is_empty() {
            return Ok(FoldedTree {
                module_behind,
                failures,
            });
        }
    }
    Ok(FoldedTree {
        module_behind,
        failures: FailureList::new(alloc),
    })
}
