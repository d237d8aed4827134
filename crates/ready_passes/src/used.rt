//! The passes that a pipeline uses.

ghost use Rattle.std.specs.Prelude.{◌≡◌, ◌++◌, IfOk, IfSome, OnOk, [], ◌∷◌};
ghost use Rattle.ready_passes.specs.Used.{conversions, is_used, names_in, pass_number, passes_in, stage_uses, used_of, uses_pass};

use crate::ready::ReadyPass;
use pipeline_text::{PassName, PassUse, Pipeline, Stage};
use std::alloc::Global;
use tree_model::NoMemory;

/// The passes that convert, in the order of their table.
const CONVERSIONS: [PassName; 7] = [
    PassName::ConvertScfToCf,
    PassName::ArithExpand,
    PassName::ConvertArithToLlvm,
    PassName::ConvertCfToLlvm,
    PassName::ConvertFuncToLlvm,
    PassName::FinalizeMemrefToLlvm,
    PassName::FullConvertToLlvm,
];

/// Passes that are ready, each once.
#[derive(Drop)]
pub struct ReadyPasses {
    passes: Vec<ReadyPass>,
}

/// The place of a pass in the table.
fn number(pass: PassName) -> u32
    ensures { result ≡ pass_number pass }
{
    pass as u32
}

/// Whether passes have this one.
fn has_pass(uses: &[PassUse], pass: PassName) -> bool
    ensures { result ≡ uses_pass pass uses.now }
{
    'each: for used in uses {
        if number(used.pass) == number(pass) {
            return true;
        }
    }
    false
}

fn stage_has(stage: &Stage, pass: PassName) -> bool
    ensures { result ≡ stage_uses pass stage.now }
{
    match stage {
        Stage::Whole(used) => number(used.pass) == number(pass),
        Stage::Each(_, uses) => has_pass(uses.as_slice(), pass),
    }
}

fn is_used(stages: &[Stage], pass: PassName) -> bool
    ensures { result ≡ is_used pass stages.now }
{
    'each: for stage in stages {
        if stage_has(stage, pass) {
            return true;
        }
    }
    false
}

/// A pass goes behind those that are ready, where a pipeline has it.
fn put_used(
    passes: &mut Vec<ReadyPass>,
    alloc: Global,
    stages: &[Stage],
    pass: PassName,
) -> Result<(), NoMemory>
    ensures { OnOk result (names_in passes.new.items ≡ names_in passes.old.items ++ used_of stages.now (pass ∷ [])) }
{
    if !is_used(stages, pass) {
        return Ok(());
    }
    passes.push(ReadyPass::new(alloc, pass)?)?;
    Ok(())
}

impl ReadyPasses {
    /// Those passes of a pipeline that convert.
    pub fn of(alloc: Global, pipeline: &Pipeline) -> Result<ReadyPasses, NoMemory>
        ensures { IfOk result (λ r. passes_in r ≡ used_of pipeline.now.stages conversions) }
    {
        let stages = pipeline.stages.as_slice();
        let all = CONVERSIONS.as_slice();
        let mut passes = Vec::new(alloc);
        'each: for pass in all {
            put_used(&mut passes, alloc, stages, *pass)?;
        }
        Ok(ReadyPasses { passes })
    }

    /// A pass, where it is one of these.
    pub fn find(&self, pass: PassName) -> Option<&ReadyPass>
        ensures { IfSome result (λ p. p.now.pass ≡ pass) }
    {
        let passes = self.passes.as_slice();
        'each: for ready in passes {
            if number(ready.pass()) == number(pass) {
                return Some(ready);
            }
        }
        None
    }
}
