//! The widths of parameters and results.

ghost use Rattle.std.specs.Prelude.{◌≡◌};
ghost use Rattle.decode_code.specs.Finding.{Stands};
ghost use Rattle.run_code.specs.Views.{bits_of, functions_of};
ghost use Rattle.run_lines.specs.Lines as lines;
ghost use Rattle.run_report.specs.Views.{known_bits};

use decode_code::Finder;
use run_code::{Width, WidthList};

fn known<'a>(widths: &'a Option<WidthList>) -> &'a [Width]
    ensures { bits_of result.now ≡ known_bits widths.now }
{
    match widths {
        Some(widths) => widths.as_slice(),
        None => &[],
    }
}

/// The widths of the parameters of the function of this name, none where they aren't known.
pub fn inputs_of<'a>(finder: &Finder<'a>, name: &[u8]) -> &'a [Width]
    requires { Stands finder.now.by_name finder.now.functions.now }
    ensures { bits_of result.now ≡ lines.inputs_of (functions_of finder.now.functions.now) name.now }
{
    match finder.find(name) {
        Some(f) => known(&f.face.inputs),
        None => &[],
    }
}

/// The widths of the results of the function of this name, none where they aren't known.
pub fn outputs_of<'a>(finder: &Finder<'a>, name: &[u8]) -> &'a [Width]
    requires { Stands finder.now.by_name finder.now.functions.now }
    ensures { bits_of result.now ≡ lines.outputs_of (functions_of finder.now.functions.now) name.now }
{
    match finder.find(name) {
        Some(f) => known(&f.face.outputs),
        None => &[],
    }
}
