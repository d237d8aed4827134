//! The lines on what failed.

ghost use Rattle.std.specs.Prelude.{◌≡◌, ◌++◌, IfOk, OnOk, flat_map, map, slice_get};
ghost use Rattle.plain_tree.specs.Ops.{plain_func};
ghost use Rattle.pipeline_text.specs.Passes.{pass_text};
ghost use Rattle.failure_lines.specs.Units.{failure_of};
ghost use Rattle.ordered_diags.specs.Failures.{lines_of};
ghost use Rattle.pass_fold.specs.Views.{failure_view};
ghost use Rattle.lowered_module.specs.Lines as told;
ghost use Rattle.lowered_module.specs.Lines.{function_name, lines_text, said};

use failure_lines::{FailedUnit, failure_lines};
use ordered_diags::Diag;
use pass_fold::FailureTree;
use pipeline_text::PassName;
use rule_facts::name_in;
use sqlite_items::{Items, at};
use std::alloc::Global;
use tree_model::{Bytes, FuncTree, NoMemory};

/// The name of a pass in a pipeline text.
fn pass_text(pass: PassName) -> &'static [u8]
    ensures { result.now ≡ pass_text pass }
{
    match pass {
        PassName::ConvertScfToCf => b"convert-scf-to-cf",
        PassName::ArithExpand => b"arith-expand",
        PassName::ConvertArithToLlvm => b"convert-arith-to-llvm",
        PassName::ConvertCfToLlvm => b"convert-cf-to-llvm",
        PassName::ConvertFuncToLlvm => b"convert-func-to-llvm",
        PassName::FinalizeMemrefToLlvm => b"finalize-memref-to-llvm",
        PassName::ReconcileUnrealizedCasts => b"reconcile-unrealized-casts",
        PassName::FullConvertToLlvm => b"full-convert-to-llvm",
    }
}

/// The name of a function, an empty one where it has none.
#[tactic(auto, using(crate::proofs::NameLaws::names))]
fn name_of(func: &FuncTree) -> &[u8]
    ensures { result.now ≡ function_name (Some (plain_func func.now)) }
{
    match name_in(func.op.props.as_slice()) {
        Some(name) => name,
        None => &[],
    }
}

/// The name of the function at a place.
fn function_name(funcs: &[FuncTree], place: u32) -> &[u8]
    ensures { result.now ≡ function_name (slice_get (map plain_func funcs.now) place) }
{
    match at(funcs, place as usize) {
        Some(func) => name_of(func),
        None => &[],
    }
}

/// What the lines on a failure say.
fn said<'a>(funcs: &'a [FuncTree], failure: &'a FailureTree) -> FailedUnit<'a>
    ensures { failure_of result ≡ said (map plain_func funcs.now) (failure_view failure.now) }
{
    FailedUnit {
        function: failure.function,
        pass: failure.position,
        function_name: function_name(funcs, failure.function),
        pass_name: pass_text(failure.pass),
        operation: failure.number,
        operation_name: failure.name.as_slice(),
        patterns: failure.patterns,
    }
}

/// The two lines on a failure.
fn lines_on(
    alloc: Global,
    funcs: &[FuncTree],
    failure: &FailureTree,
) -> Result<Items<Diag>, NoMemory>
    ensures { IfOk result (λ ds. ds ≡ lines_of (said (map plain_func funcs.now) (failure_view failure.now))) }
{
    let unit = said(funcs, failure);
    failure_lines(alloc, &unit)
}

/// The lines on each failure.
pub fn all_lines(
    alloc: Global,
    funcs: &[FuncTree],
    failures: &[FailureTree],
) -> Result<Items<Items<Diag>>, NoMemory>
    ensures { IfOk result (λ lists. flat_map (λ list. list) lists ≡ told.all_lines (map plain_func funcs.now) (map failure_view failures.now)) }
{
    let mut lists = Items::new(alloc);
    'each: for failure in failures {
        lists.push(lines_on(alloc, funcs, failure)?)?;
    }
    Ok(lists)
}

/// The text of lines, each with its line feed.
pub fn lines_text(alloc: Global, lines: &[Diag]) -> Result<Bytes, NoMemory>
    ensures { IfOk result (λ text. text ≡ lines_text lines.now) }
{
    let mut text = Bytes::new(alloc);
    'each: for line in lines {
        text.put(line.text.as_slice())?;
        text.put(b"\n")?;
    }
    Ok(text)
}
