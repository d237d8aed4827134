//! Numbers of known widths.

ghost use Rattle.std.specs.Prelude.{◌≡◌, ◌++◌, OnOk};
ghost use Rattle.tree_text.specs.AttrText.{bit_text};
ghost use Rattle.run_code.specs.Views.{bits_of};
ghost use Rattle.run_lines.specs.Lines.{number_text, numbers_text};

use run_code::Width;
use tree_model::{Bytes, NoMemory};

fn bit_word(number: i64) -> &'static [u8]
    ensures { result.now ≡ bit_text number }
{
    if number == 0 { b"false" } else { b"true" }
}

fn put_number(out: &mut Bytes, width: Width, number: i64) -> Result<(), NoMemory>
    ensures { OnOk result (out.new ≡ out.old ++ number_text width.bits number) }
{
    if width.bits == 1 {
        out.put(bit_word(number))
    } else {
        out.put_signed(number)
    }
}

/// Appends numbers of these widths, the first one behind `lead` and each other one behind `, `.
pub fn put_numbers(
    out: &mut Bytes,
    lead: &[u8],
    widths: &[Width],
    numbers: &[i64],
) -> Result<(), NoMemory>
    ensures { OnOk result (out.new ≡ out.old ++ numbers_text lead.now (bits_of widths.now) numbers.now) }
{
    let mut lead = lead;
    for (width, number) in widths.iter().zip(numbers) {
        out.put(lead)?;
        put_number(out, *width, *number)?;
        lead = b", ";
    }
    Ok(())
}
