//! The function from which a run begins.

ghost use Rattle.std.specs.Prelude.{◌≡◌, IfOk};
ghost use Rattle.meaning_model.specs.Meaning as model;
ghost use Rattle.value_code.specs.Models.{values_of};
ghost use Rattle.run_code.specs.Views.{bits_of, function_of, functions_of};
ghost use Rattle.decode_code.specs.Finding.{Stands};
ghost use Rattle.outcome_code.specs.Outcomes.{Enters, enters_between, enters_one, enters_with};

use crate::arguments::arguments;
use crate::kinds::Entry;
use decode_code::Finder;
use machine_code::begin;
use run_code::{Function, Width};
use std::alloc::{AllocError, Global};
use value_code::Value;

/// The entry into a function of these results, with these arguments.
fn entry_with<'a>(
    alloc: Global,
    f: &'a Function,
    outputs: &'a [Width],
    xs: &[Value],
) -> Result<Option<Entry<'a>>, AllocError>
    ensures { IfOk result (λ o. Enters o (enters_with (function_of f.now) (bits_of outputs.now) (values_of xs.now))) }
{
    match begin(alloc, f, xs)? {
        Some(place) => Ok(Some(Entry {
            outputs,
            packing: f.face.packing,
            place,
        })),
        None => Ok(None),
    }
}

/// The entry into a function of these widths, with these arguments.
fn entry_between<'a>(
    alloc: Global,
    f: &'a Function,
    inputs: &'a [Width],
    outputs: &'a [Width],
    args: &[i128],
) -> Result<Option<Entry<'a>>, AllocError>
    ensures { IfOk result (λ o. Enters o (enters_between (function_of f.now) (bits_of inputs.now) (bits_of outputs.now) args.now)) }
{
    match arguments(alloc, inputs, args)? {
        Some(xs) => Ok(entry_with(alloc, f, outputs, xs.as_slice())?),
        None => Ok(None),
    }
}

/// The entry into a function, with these arguments.
fn entry_at<'a>(
    alloc: Global,
    f: &'a Function,
    args: &[i128],
) -> Result<Option<Entry<'a>>, AllocError>
    ensures { IfOk result (λ o. Enters o (model.entry_at (function_of f.now) args.now)) }
{
    let Some(inputs) = &f.face.inputs else {
        return Ok(None);
    };
    let Some(outputs) = &f.face.outputs else {
        return Ok(None);
    };
    Ok(entry_between(alloc, f, inputs.as_slice(), outputs.as_slice(), args)?)
}

/// The entry into a function with blocks, with these arguments.
fn entry_inside<'a>(
    alloc: Global,
    f: &'a Function,
    args: &[i128],
) -> Result<Option<Entry<'a>>, AllocError>
    ensures { IfOk result (λ o. Enters o (enters_one (function_of f.now) args.now)) }
{
    if f.blocks.is_empty() {
        Ok(None)
    } else {
        Ok(entry_at(alloc, f, args)?)
    }
}

/// The entry into the function of a name, with these arguments. None where that is outside of what has a meaning.
pub fn entry_of<'a>(
    alloc: Global,
    finder: &Finder<'a>,
    name: &[u8],
    args: &[i128],
) -> Result<Option<Entry<'a>>, AllocError>
    requires { Stands finder.now.by_name finder.now.functions.now }
    ensures { IfOk result (λ o. Enters o (model.entry_of (functions_of finder.now.functions.now) name.now args.now)) }
{
    match finder.find(name) {
        Some(f) => Ok(entry_inside(alloc, f, args)?),
        None => Ok(None),
    }
}
