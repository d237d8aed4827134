//! The lines on an outcome.

ghost use Rattle.std.specs.Prelude.{◌≡◌, ◌++◌, OnOk, map};
ghost use Rattle.decode_code.specs.Finding.{Stands};
ghost use Rattle.machine_code.specs.Machines.{call_seen};
ghost use Rattle.outcome_code.specs.Outcomes.{end_of};
ghost use Rattle.run_code.specs.Views.{bits_of, functions_of};
ghost use Rattle.run_lines.specs.Lines.{call_line, call_lines, end_text, outcome_text};
ghost use Rattle.run_lines.specs.Lines as lines;

use crate::widths::{inputs_of, outputs_of};
use decode_code::Finder;
use machine_code::ExternalCall;
use outcome_code::{End, Outcome};
use run_code::Width;
use run_lines::{put_call, put_done};
use tree_model::{Bytes, NoMemory};

fn put_end(out: &mut Bytes, widths: &[Width], end: &End) -> Result<(), NoMemory>
    ensures { OnOk result (out.new ≡ out.old ++ end_text (bits_of widths.now) (end_of end.now)) }
{
    match end {
        End::Done(results) => put_done(out, widths, results.as_slice()),
        End::More => out.put(b"more"),
        End::Undefined => out.put(b"undefined"),
        End::Outside => out.put(b"outside"),
        End::NoRoom => out.put(b"no room"),
    }
}

fn put_one(out: &mut Bytes, finder: &Finder<'_>, call: &ExternalCall) -> Result<(), NoMemory>
    requires { Stands finder.now.by_name finder.now.functions.now }
    ensures { OnOk result (out.new ≡ out.old
        ++ call_line (lines.inputs_of (functions_of finder.now.functions.now) call.now.name) (lines.outputs_of (functions_of finder.now.functions.now) call.now.name) (call_seen call.now)) }
{
    let name = call.name.as_slice();
    put_call(
        out,
        name,
        (inputs_of(finder, name), call.args.as_slice()),
        (outputs_of(finder, name), call.answers.as_slice()),
    )
}

fn put_calls(out: &mut Bytes, finder: &Finder<'_>, calls: &[ExternalCall]) -> Result<(), NoMemory>
    requires { Stands finder.now.by_name finder.now.functions.now }
    ensures { OnOk result (out.new ≡ out.old ++ call_lines (functions_of finder.now.functions.now) (map call_seen calls.now)) }
{
    for call in calls {
        put_one(out, finder, call)?;
    }
    Ok(())
}

/// Appends what a run of the function of this name comes to.
pub fn put_outcome(
    out: &mut Bytes,
    finder: &Finder<'_>,
    name: &[u8],
    outcome: &Outcome,
) -> Result<(), NoMemory>
    requires { Stands finder.now.by_name finder.now.functions.now }
    ensures { OnOk result (out.new ≡ out.old ++ outcome_text (functions_of finder.now.functions.now) name.now (end_of outcome.now.end) (map call_seen outcome.now.trace)) }
{
    put_end(out, outputs_of(finder, name), &outcome.end)?;
    out.put(b"\n")?;
    put_calls(out, finder, outcome.trace.as_slice())
}
