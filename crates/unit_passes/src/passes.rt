//! Passes on one function.

ghost use Rattle.std.specs.Prelude.{◌≡◌, IfOk, false, is_some, true};
ghost use Rattle.plain_tree.specs.Ops.{plain_op};
ghost use Rattle.pattern_model.specs.PassTable.{pass_of};
ghost use Rattle.pass_fold.specs.Makes.{PassMakes, illegal, made};
ghost use Rattle.ready_passes.specs.Used.{conversions, passes_in, used_of};
ghost use Rattle.unit_choices.specs.Answers.{unlegalised};
ghost use Rattle.unit_conversion.specs.Converts.{answer};

use pass_fold::{IllegalOp, Passes};
use pipeline_text::{PassName, Pipeline};
use ready_passes::{
    ReadyPass, ReadyPasses, converts_blocks, count_patterns, is_conversion, mode_of_pass,
};
use std::alloc::Global;
use tree_model::{Name, NoMemory, OpTree, copy_op};
use tree_reconcile::reconciled;
use unit_choices::UnlegalisedTree;
use unit_conversion::convert;

/// Passes on functions, with the tables of those that a pipeline has.
#[derive(Drop)]
pub struct UnitPasses {
    ready: ReadyPasses,
}

fn illegal_op(at: UnlegalisedTree) -> IllegalOp
    ensures { illegal result ≡ unlegalised at }
{
    IllegalOp {
        number: at.number,
        name: at.name,
    }
}

/// A function that is made, or the operation for which there is no way.
fn made_by(converted: Result<OpTree, UnlegalisedTree>) -> Result<OpTree, IllegalOp>
    ensures { made result ≡ answer converted }
{
    match converted {
        Ok(g) => Ok(g),
        Err(at) => Err(illegal_op(at)),
    }
}

/// The conversion of a pass.
fn converted(
    alloc: Global,
    ready: &ReadyPass,
    bits: u32,
    f: &OpTree,
) -> Result<Result<OpTree, IllegalOp>, NoMemory>
    requires { is_some (pass_of ready.now.pass) ≡ true }
    ensures { IfOk result (λ r. PassMakes ready.now.pass bits (plain_op f.now) (made r)) }
{
    let tables = ready.tables(bits);
    let mode = mode_of_pass(ready.pass());
    let blocks = converts_blocks(ready.pass());
    let converted = convert(alloc, &tables, mode, blocks, f)?;
    Ok(made_by(converted))
}

impl UnitPasses {
    /// The passes of a pipeline.
    pub fn of(alloc: Global, pipeline: &Pipeline) -> Result<UnitPasses, NoMemory>
        ensures { IfOk result (λ r. passes_in r.ready ≡ used_of pipeline.now.stages conversions) }
    {
        let ready = ReadyPasses::of(alloc, pipeline)?;
        Ok(UnitPasses { ready })
    }

    /// The conversion of a pass; one that the pipeline doesn't have is made ready for it.
    fn conversion(
        &self,
        alloc: Global,
        pass: PassName,
        bits: u32,
        f: &OpTree,
    ) -> Result<Result<OpTree, IllegalOp>, NoMemory>
        requires { is_some (pass_of pass) ≡ true }
        ensures { IfOk result (λ r. PassMakes pass bits (plain_op f.now) (made r)) }
    {
        match self.ready.find(pass) {
            Some(ready) => converted(alloc, ready, bits, f),
            None => {
                let ready = ReadyPass::new(alloc, pass)?;
                converted(alloc, &ready, bits, f)
            }
        }
    }
}

/// The function reconciled.
fn reconciliation(
    alloc: Global,
    pass: PassName,
    bits: u32,
    f: &OpTree,
) -> Result<Result<OpTree, IllegalOp>, NoMemory>
    requires { is_some (pass_of pass) ≡ false }
    ensures { IfOk result (λ r. PassMakes pass bits (plain_op f.now) (made r)) }
{
    let copy = copy_op(alloc, f)?;
    let g = reconciled(alloc, copy)?;
    Ok(Ok(g))
}

impl Passes for UnitPasses {
    fn run(
        &self,
        alloc: Global,
        pass: PassName,
        bits: u32,
        f: &OpTree,
    ) -> Result<Result<OpTree, IllegalOp>, NoMemory> {
        if is_conversion(pass) {
            self.conversion(alloc, pass, bits, f)
        } else {
            reconciliation(alloc, pass, bits, f)
        }
    }

    fn patterns(&self, pass: PassName, name: &Name) -> usize {
        count_patterns(pass, name.as_slice())
    }
}
