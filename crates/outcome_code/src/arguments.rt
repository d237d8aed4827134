//! Arguments of the entry.

ghost use Rattle.std.specs.Prelude.{◌≡◌, IfOk};
ghost use Rattle.meaning_model.specs.Meaning as model;
ghost use Rattle.run_code.specs.Views.{bits_of};
ghost use Rattle.call_code.specs.Lists.{list_of};

use number_code::{fits_signed, fits_unsigned, wrapped};
use run_code::Width;
use sqlite_items::{Items, at};
use std::alloc::{AllocError, Global};
use value_code::{Value, ValueList};

/// Whether an argument fits a width: as a signed or as an unsigned number.
fn fits(w: Width, z: i128) -> bool
    ensures { result ≡ model.fits w.bits z }
{
    fits_signed(w.bits, z) || fits_unsigned(w.bits, z)
}

/// The arguments as values. None where they are not as many as the widths, or one doesn't fit.
pub fn arguments(
    alloc: Global,
    widths: &[Width],
    args: &[i128],
) -> Result<Option<ValueList>, AllocError>
    ensures { IfOk result (λ o. list_of o ≡ model.arguments (bits_of widths.now) args.now) }
{
    let mut all = Items::new(alloc);
    for i in 0..widths.len() {
        let w = widths[i];
        let Some(z) = at(args, i) else {
            return Ok(None);
        };
        if !fits(w, *z) {
            return Ok(None);
        }
        all.push(Value::Integer(wrapped(w.bits, *z)))?;
    }
    if widths.len() < args.len() {
        return Ok(None);
    }
    Ok(Some(all))
}
