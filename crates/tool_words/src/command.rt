//! What `clap` reads of the words.

ghost use Rattle.std.specs.Prelude.{◌≡◌, IfOk, map, option_map, true, false};
ghost use Rattle.clap.specs.Words.{app_of, found_of, rule_of};
ghost use Rattle.tool_words.specs.Uses.{given_in};
ghost use Rattle.tool_words.specs.Parsed.{Shows, app, flag_rule, none_is_short, option_rule, plain_given};

use clap::error::ErrorKind;
use clap::{Arg, ArgAction, ArgMatches, Command};
use std::alloc::{AllocError, Global};
use tree_model::NoMemory;

const FLAG: &str = "allow-unregistered-dialect";

/// What is given for each option, and whether the flag is.
#[derive(Clone, Copy)]
pub(crate) struct Given<'a> {
    pub(crate) pipeline: Option<&'a str>,
    pub(crate) workers: Option<&'a str>,
    pub(crate) allowed: bool,
    pub(crate) run: Option<&'a str>,
    pub(crate) args: Option<&'a str>,
    pub(crate) fuel: Option<&'a str>,
}

/// What the texts give; none where they are not in the form of the command's words.
pub(crate) fn parsed<'a>(alloc: Global, texts: &'a [&'a str]) -> Result<Option<Given<'a>>, NoMemory>
    ensures { none_is_short (map (λ s. s.now) texts.entry.now) ≡ true
        → IfOk result (λ r. option_map plain_given r ≡ given_in (map (λ s. s.now) texts.entry.now)) }
{
    match command(alloc)?.try_get_matches_from(texts) {
        Ok(matches) => Ok(Some(found(&matches))),
        Err(error) if error.kind() == ErrorKind::OutOfMemory => Err(AllocError),
        Err(_) => Ok(None),
    }
}

/// What the matches show.
fn found<'a>(matches: &ArgMatches<'a>) -> Given<'a>
    ensures { Shows (found_of matches.now) (plain_given result) }
{
    Given {
        pipeline: matches.get_str("pass-pipeline"),
        workers: matches.get_str("workers"),
        allowed: matches.get_flag(FLAG),
        run: matches.get_str("run"),
        args: matches.get_str("args"),
        fuel: matches.get_str("fuel"),
    }
}

/// The command: options and the flag, and no words for help or version.
fn command<'a>(alloc: Global) -> Result<Command<'a>, NoMemory>
    ensures { IfOk result (λ c. app_of c ≡ app) }
{
    let flag = Arg::new(alloc, FLAG).long(FLAG).action(ArgAction::SetTrue);
    Command::new(alloc, "mlir_lower")
        .no_binary_name(true)
        .disable_help_flag(true)
        .disable_version_flag(true)
        .arg(option(alloc, "pass-pipeline"))?
        .arg(option(alloc, "workers"))?
        .arg(flag)?
        .arg(option(alloc, "run"))?
        .arg(option(alloc, "args"))?
        .arg(option(alloc, "fuel"))
}

/// An option that takes a value.
fn option<'a>(alloc: Global, name: &'a str) -> Arg<'a>
    ensures rule { rule_of result ≡ option_rule name.entry.now }
    ensures global { result.global ≡ false }
{
    Arg::new(alloc, name).long(name)
}
