//! Passes on one function, in order.

ghost use Rattle.std.specs.Prelude.{◌≡◌, IfOk};
ghost use Rattle.std.specs.Str.{bytes_eq};
ghost use Rattle.plain_tree.specs.Ops.{plain_op};
ghost use Rattle.fold_model.specs.Runs.{PassesRun, RunIf};
ghost use Rattle.pass_fold.specs.Views.{made_or, ran_view, runs_at};
ghost use Rattle.pass_fold.specs.Steps.{StepIs};

use crate::failure::{FailureTree, failure};
use crate::passes::Passes;
use pipeline_text::{Anchor, PassName, PassUse};
use std::alloc::{AllocError, Global};
use tree_model::{Name, NoMemory, OpTree};

/// A function behind passes: what was made of it, none where it is as it was, and the failure of the pass that failed.
#[derive(Debug, Drop)]
pub struct RanTree {
    pub made: Option<OpTree>,
    pub failed: Option<FailureTree>,
}

fn current<'a>(made: &'a Option<OpTree>, f: &'a OpTree) -> &'a OpTree
    ensures { plain_op result.now ≡ made_or (plain_op f.now) made.now }
{
    match made {
        Some(g) => g,
        None => f,
    }
}

/// One pass on a function.
fn run_at<P: Passes>(
    alloc: Global,
    passes: &P,
    bits: u32,
    function: u32,
    position: usize,
    pass: PassName,
    f: &OpTree,
) -> Result<Result<OpTree, FailureTree>, NoMemory>
    ensures { IfOk result (λ r. StepIs pass bits function position (plain_op f.now) r) }
{
    match passes.run(alloc, pass, bits, f)? {
        Ok(g) => Ok(Ok(g)),
        Err(at) => match u32::try_from(position) {
            Ok(position) => {
                let failed = failure(passes, function, position, pass, at)?;
                Ok(Err(failed))
            }
            Err(_) => Err(AllocError),
        },
    }
}

/// Passes in order, up to the first that fails.
fn run_passes<P: Passes>(
    alloc: Global,
    passes: &P,
    bits: u32,
    uses: &[PassUse],
    function: u32,
    f: &OpTree,
) -> Result<RanTree, NoMemory>
    ensures { IfOk result (λ r. PassesRun bits function 0 uses.now (plain_op f.now) (ran_view (plain_op f.now) r)) }
{
    let mut made: Option<OpTree> = None;
    'each: for (position, used) in uses.iter().enumerate() {
        let now = current(&made, f);
        match run_at(alloc, passes, bits, function, position, used.pass, now)? {
            Ok(next) => made = Some(next),
            Err(failed) => {
                return Ok(RanTree {
                    made,
                    failed: Some(failed),
                });
            }
        }
    }
    Ok(RanTree { made, failed: None })
}

fn same_name(name: &Name, text: &[u8]) -> bool
    ensures { result ≡ bytes_eq name.now text.now }
{
    name.as_slice() == text
}

/// Whether the passes of an anchor run on a function.
#[tactic(auto, using(crate::proofs::NameLaws::names))]
fn is_run(anchor: Option<Anchor>, f: &OpTree) -> bool
    ensures { result ≡ runs_at anchor (plain_op f.now) }
{
    match anchor {
        None => true,
        Some(Anchor::FuncFunc) => same_name(&f.name, b"func.func"),
        Some(Anchor::LlvmFunc) => same_name(&f.name, b"llvm.func"),
    }
}

/// Passes on a function that is run; another one stays as it is.
pub fn run_function<P: Passes>(
    alloc: Global,
    passes: &P,
    bits: u32,
    anchor: Option<Anchor>,
    uses: &[PassUse],
    function: u32,
    f: &OpTree,
) -> Result<RanTree, NoMemory>
    ensures { IfOk result (λ r. RunIf (runs_at anchor (plain_op f.now)) bits function uses.now (plain_op f.now) (ran_view (plain_op f.now) r)) }
{
    if is_run(anchor, f) {
        run_passes(alloc, passes, bits, uses, function, f)
    } else {
        Ok(RanTree {
            made: None,
            failed: None,
        })
    }
}
