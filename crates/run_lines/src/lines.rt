//! The end of a run that is done, and a call.

ghost use Rattle.std.specs.Prelude.{◌≡◌, ◌++◌, OnOk};
ghost use Rattle.meaning_model.specs.Meaning.{Done};
ghost use Rattle.run_code.specs.Views.{bits_of};
ghost use Rattle.run_lines.specs.Lines.{call_line, end_text};

use crate::numbers::put_numbers;
use run_code::Width;
use tree_model::{Bytes, NoMemory};
use tree_text::put_name;

/// Appends the end of a run with these results, which have these widths.
pub fn put_done(out: &mut Bytes, widths: &[Width], results: &[i64]) -> Result<(), NoMemory>
    ensures { OnOk result (out.new ≡ out.old ++ end_text (bits_of widths.now) (Done results.now)) }
{
    out.put(b"done")?;
    put_numbers(out, b" ", widths, results)
}

/// Appends the line on a call of the external function of this name, whose parameters and results have these widths.
pub fn put_call(
    out: &mut Bytes,
    name: &[u8],
    inputs: (&[Width], &[i64]),
    outputs: (&[Width], &[i64]),
) -> Result<(), NoMemory>
    ensures { OnOk result (out.new ≡ out.old ++ call_line (bits_of inputs.entry.0.now) (bits_of outputs.entry.0.now) (record { name = name.now; args = inputs.entry.1.now; answers = outputs.entry.1.now })) }
{
    out.put(b"call @")?;
    put_name(out, name)?;
    out.put(b"(")?;
    put_numbers(out, b"", inputs.0, inputs.1)?;
    out.put(b")")?;
    put_numbers(out, b" = ", outputs.0, outputs.1)?;
    out.put(b"\n")
}
