//! The values of options.

ghost use Rattle.std.specs.Prelude.{◌≡◌, IfOk, option_map};
ghost use Rattle.tool_words.specs.Parsed.{plain_given, plain_settings, text_given};
ghost use Rattle.tool_words.specs.Settings.{args_in, fuel_in, run_in, run_of, settings_of, workers_in};

use crate::command::Given;
use crate::numbers::{integers, number};
use crate::request::RunWords;
use sqlite_items::Items;
use std::alloc::Global;
use tree_model::{Bytes, NoMemory};

/// What is asked for, where the text of the pipeline is not read yet.
#[derive(Drop)]
pub(crate) struct Settings<'a> {
    pub(crate) pipeline: &'a str,
    pub(crate) workers: u32,
    pub(crate) allowed: bool,
    pub(crate) run: Option<RunWords>,
}

/// What is asked for by what is given; none where a value is not of its form, or stands without the option that it goes with.
pub(crate) fn settings_of<'a>(
    alloc: Global,
    given: Given<'a>,
) -> Result<Option<Settings<'a>>, NoMemory>
    ensures { IfOk result (λ r. option_map plain_settings r ≡ settings_of (plain_given given.entry)) }
{
    let Some(workers) = workers(given.workers) else {
        return Ok(None);
    };
    let Some(run) = run(alloc, given.run, given.args, given.fuel)? else {
        return Ok(None);
    };
    Ok(Some(Settings {
        pipeline: given.pipeline.unwrap_or("builtin.module()"),
        workers,
        allowed: given.allowed,
        run,
    }))
}

fn workers(text: Option<&str>) -> Option<u32>
    ensures { result ≡ workers_in (text_given text.entry) }
{
    match text {
        Some(text) => number(text, 1, 64),
        None => Some(1),
    }
}

fn fuel(text: Option<&str>) -> Option<u32>
    ensures { result ≡ fuel_in (text_given text.entry) }
{
    match text {
        Some(text) => number(text, 0, 1_000_000),
        None => Some(100_000),
    }
}

fn args(alloc: Global, text: Option<&str>) -> Result<Option<Items<i128>>, NoMemory>
    ensures { IfOk result (λ r. r ≡ args_in (text_given text.entry)) }
{
    match text {
        Some(text) => integers(alloc, text),
        None => Ok(Some(Items::new(alloc))),
    }
}

/// A run, if one is asked for; without one neither arguments nor fuel may stand.
fn run(
    alloc: Global,
    name: Option<&str>,
    args: Option<&str>,
    fuel: Option<&str>,
) -> Result<Option<Option<RunWords>>, NoMemory>
    ensures { IfOk result (λ r. r ≡ run_in (text_given name.entry) (text_given args.entry) (text_given fuel.entry)) }
{
    match name {
        Some(name) => Ok(run_of(alloc, name, args, fuel)?.map(Some)),
        None if args.is_some() || fuel.is_some() => Ok(None),
        None => Ok(Some(None)),
    }
}

fn run_of(
    alloc: Global,
    name: &str,
    args_text: Option<&str>,
    fuel_text: Option<&str>,
) -> Result<Option<RunWords>, NoMemory>
    ensures { IfOk result (λ r. r ≡ run_of name.now (args_in (text_given args_text.entry)) (fuel_in (text_given fuel_text.entry))) }
{
    let Some(args) = args(alloc, args_text)? else {
        return Ok(None);
    };
    let Some(fuel) = fuel(fuel_text) else {
        return Ok(None);
    };
    let name = Bytes::from_slice(alloc, name.as_bytes())?;
    Ok(Some(RunWords { name, args, fuel }))
}
