//! Both runs.

ghost use Rattle.std.specs.Prelude.{◌≡◌, ◌++◌, ◌≤◌, IfOk, map};
ghost use Rattle.form_model.specs.Decoding as model;
ghost use Rattle.machine_code.specs.Machines.{call_seen};
ghost use Rattle.outcome_code.specs.Outcomes.{end_of};
ghost use Rattle.run_lines.specs.Lines.{outcome_text};
ghost use Rattle.run_report.specs.Reports as reports;
ghost use Rattle.run_report.specs.Views.{request_of};

use crate::outcomes::put_outcome;
use decode_code::{decode, finder_of};
use llvm_only::is_all_llvm;
use meaning_l::run_l;
use meaning_s::{Outcome, run_s};
use run_code::{Width, full_width};
use std::alloc::Global;
use tree_model::{Bytes, ModuleTree, Name, NoMemory};

/// The bytes of memory of a run by the meaning of llvm operations.
const CELLS: u64 = 16_777_216;

/// What is to be run: a function by its name, with arguments and fuel, where an `index` has so many bits.
#[derive(Clone, Copy, Debug)]
pub struct Run<'a> {
    pub name: &'a [u8],
    pub args: &'a [i128],
    pub fuel: u32,
    pub bits: u32,
}

/// The lines on an outcome of the function of this name, behind `lead`.
fn text_of(
    alloc: Global,
    lead: &[u8],
    tree: &ModuleTree,
    width: Width,
    name: &[u8],
    outcome: &Outcome,
) -> Result<Bytes, NoMemory>
    ensures { IfOk result (λ text. text ≡ lead.now ++ outcome_text (model.functions_of width.bits tree.now) name.now (end_of outcome.now.end) (map call_seen outcome.now.trace)) }
{
    let functions = decode(alloc, width, tree)?;
    let finder = finder_of(alloc, functions.as_slice())?;
    let mut out = Bytes::from_slice(alloc, lead)?;
    put_outcome(&mut out, &finder, name, outcome)?;
    Ok(out)
}

/// A run by the structured meaning.
fn structured_text(
    alloc: Global,
    lead: &[u8],
    tree: &ModuleTree,
    run: Run<'_>,
) -> Result<Bytes, NoMemory>
    requires one { 1 ≤ run.bits }
    requires most { run.bits ≤ 64 }
    ensures { IfOk result (λ text. text ≡ lead.now ++ reports.structured_text (request_of run.entry) tree.now) }
{
    let name = Name::from_slice(alloc, run.name)?;
    let outcome = run_s(
        alloc,
        tree,
        &name,
        run.args,
        &[],
        u64::from(run.fuel),
        run.bits,
    )?;
    Ok(text_of(
        alloc,
        lead,
        tree,
        Width { bits: run.bits },
        run.name,
        &outcome,
    )?)
}

/// A run by the meaning of llvm operations.
fn llvm_text(alloc: Global, lead: &[u8], tree: &ModuleTree, run: Run<'_>) -> Result<Bytes, NoMemory>
    ensures { IfOk result (λ text. text ≡ lead.now ++ reports.llvm_text (request_of run.entry) tree.now) }
{
    let name = Name::from_slice(alloc, run.name)?;
    let fuel = 100 * u64::from(run.fuel);
    let outcome = run_l(alloc, tree, &name, run.args, &[], CELLS, fuel)?;
    Ok(text_of(alloc, lead, tree, full_width(), run.name, &outcome)?)
}

/// The lines on a run of the module that was read.
pub fn source_text(alloc: Global, tree: &ModuleTree, run: Run<'_>) -> Result<Bytes, NoMemory>
    requires one { 1 ≤ run.bits }
    requires most { run.bits ≤ 64 }
    ensures { IfOk result (λ text. text ≡ reports.source_text (request_of run.entry) tree.now) }
{
    structured_text(alloc, b"source: ", tree, run)
}

/// The lines on a run of the module that the pipeline gave: by the meaning of llvm operations where it has no other ones, with 2^24 bytes
/// of memory and 100 times the fuel, else by the structured meaning.
pub fn lowered_text(alloc: Global, tree: &ModuleTree, run: Run<'_>) -> Result<Bytes, NoMemory>
    requires one { 1 ≤ run.bits }
    requires most { run.bits ≤ 64 }
    ensures { IfOk result (λ text. text ≡ reports.lowered_text (request_of run.entry) tree.now) }
{
    if is_all_llvm(tree) {
        llvm_text(alloc, b"lowered: ", tree, run)
    } else {
        structured_text(alloc, b"lowered: ", tree, run)
    }
}
