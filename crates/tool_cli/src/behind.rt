//! What is written behind a pipeline.

ghost use Rattle.std.specs.Prelude.{◌≡◌, ◌++◌, ◌≤◌, IfOk, None, Some};
ghost use Rattle.run_report.specs.Views.{request_of};
ghost use Rattle.tool_cli.specs.Behind as told;
ghost use Rattle.tool_cli.specs.Behind.{index_bits, Lowers};

use crate::prepared::{Prepared, ran};
use generic_printer::print_tree;
use pass_fold::width_of;
use pipeline_text::Pipeline;
use run_report::{Run, lowered_text, source_text};
use std::alloc::Global;
use tool_words::{Request, RunWords};
use tree_model::{ModuleTree, NoMemory};
use unit_passes::lower;

fn index_bits(pipeline: &Pipeline) -> u32
    ensures is { result ≡ index_bits pipeline.now }
    ensures one { 1 ≤ result }
    ensures most { result ≤ 64 }
{
    if width_of(pipeline.stages.as_slice()) == 32 {
        32
    } else {
        64
    }
}

fn run_of<'a>(request: &Request, run: &'a RunWords) -> Run<'a>
    ensures is { request_of result ≡ told.run_of request.now run.now }
    ensures one { 1 ≤ result.bits }
    ensures most { result.bits ≤ 64 }
{
    Run {
        name: run.name.as_slice(),
        args: run.args.as_slice(),
        fuel: run.fuel,
        bits: index_bits(&request.pipeline),
    }
}

/// The module behind the pipeline, printed.
pub fn printed(alloc: Global, request: &Request, source: ModuleTree) -> Result<Prepared, NoMemory>
    ensures { IfOk result (λ p. Lowers None request.now source p) }
{
    let behind = lower(alloc, &request.pipeline, source)?;
    let text = print_tree(alloc, &behind.module_behind)?;
    Ok(ran(text, behind.lines, behind.failed))
}

/// The lines on a run of the module, and on one of the module behind the pipeline.
pub fn run_twice(
    alloc: Global,
    request: &Request,
    run: &RunWords,
    source: ModuleTree,
) -> Result<Prepared, NoMemory>
    ensures { IfOk result (λ p. Lowers (Some run.now) request.now source p) }
{
    let asked = run_of(request, run);
    let mut text = source_text(alloc, &source, asked)?;
    let behind = lower(alloc, &request.pipeline, source)?;
    let more = lowered_text(alloc, &behind.module_behind, asked)?;
    text.put(more.as_slice())?;
    Ok(ran(text.into_vec(), behind.lines, behind.failed))
}
