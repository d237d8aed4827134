//! Passes on the functions of a module.

ghost use Rattle.std.specs.Prelude.{◌≡◌, IfOk, OnOk, map};
ghost use Rattle.plain_tree.specs.Ops.{plain_func, plain_op};
ghost use Rattle.fold_model.specs.Runs.{FunctionsRun};
ghost use Rattle.pass_fold.specs.Views.{made_or, ran_view, runs_at, stood_view};
ghost use Rattle.pass_fold.specs.Steps.{RunsLast, with_failed, with_function, with_last};

use crate::failure::{FailureList, FailureTree};
use crate::passes::Passes;
use crate::running::{RanTree, run_function};
use pipeline_text::{Anchor, PassUse};
use sqlite_items::Items;
use std::alloc::{AllocError, Global};
use tree_model::{FuncList, FuncTree, NoMemory, OpTree, copy_op};

/// Functions behind passes, and the failures in the order of the functions.
#[derive(Debug, Drop)]
pub struct StoodTree {
    pub funcs: FuncList,
    pub failures: FailureList,
}

/// The function that was made, or a copy of the one that there was.
fn made_or_copy(alloc: Global, made: Option<OpTree>, f: &OpTree) -> Result<OpTree, NoMemory>
    ensures { IfOk result (λ g. plain_op g ≡ made_or (plain_op f.now) made) }
{
    match made {
        Some(g) => Ok(g),
        None => copy_op(alloc, f),
    }
}

impl StoodTree {
    fn put_failure(&mut self, failed: Option<FailureTree>) -> Result<(), NoMemory>
        ensures { OnOk result (stood_view self.new ≡ with_failed (stood_view self.old) failed) }
    {
        match failed {
            Some(failure) => self.failures.push(failure),
            None => Ok(()),
        }
    }

    fn put_function(&mut self, op: OpTree) -> Result<(), NoMemory>
        ensures { OnOk result (stood_view self.new ≡ with_function (stood_view self.old) (plain_op op)) }
    {
        self.funcs.push(FuncTree { op })
    }

    /// A function behind those that stand.
    fn put(&mut self, alloc: Global, ran: RanTree, f: &OpTree) -> Result<(), NoMemory>
        ensures { OnOk result (stood_view self.new ≡ with_last (stood_view self.old) (ran_view (plain_op f.now) ran)) }
    {
        let RanTree { made, failed } = ran;
        let op = made_or_copy(alloc, made, f)?;
        self.put_function(op)?;
        self.put_failure(failed)
    }
}

/// The next function.
fn run_next<P: Passes>(
    alloc: Global,
    passes: &P,
    bits: u32,
    anchor: Option<Anchor>,
    uses: &[PassUse],
    function: usize,
    f: &FuncTree,
    stood: &mut StoodTree,
) -> Result<(), NoMemory>
    ensures { OnOk result (RunsLast (runs_at anchor (plain_func f.now)) bits function uses.now (plain_func f.now) (stood_view stood.old) (stood_view stood.new)) }
{
    let Ok(function) = u32::try_from(function) else {
        return Err(AllocError);
    };
    let ran = run_function(alloc, passes, bits, anchor, uses, function, &f.op)?;
    stood.put(alloc, ran, &f.op)
}

/// Passes on each function that is run, in order.
pub fn run_functions<P: Passes>(
    alloc: Global,
    passes: &P,
    bits: u32,
    anchor: Option<Anchor>,
    uses: &[PassUse],
    funcs: &[FuncTree],
) -> Result<StoodTree, NoMemory>
    ensures { IfOk result (λ s. FunctionsRun bits (runs_at anchor) uses.now 0 (map plain_func funcs.now) (stood_view s)) }
{
    let mut stood = StoodTree {
        funcs: Items::new(alloc),
        failures: Items::new(alloc),
    };
    'each: for (function, f) in funcs.iter().enumerate() {
        run_next(alloc, passes, bits, anchor, uses, function, f, &mut stood)?;
    }
    Ok(stood)
}
