//! Reads the words.

ghost use Rattle.std.specs.Prelude.{◌≡◌, IfOk, map, option_and_then, true, Some};
ghost use Rattle.tool_words.specs.Parsed.{none_is_short, plain_given, plain_settings};
ghost use Rattle.tool_words.specs.Settings.{settings_of};
ghost use Rattle.tool_words.specs.Uses.{given_in};
ghost use Rattle.tool_words.specs.Pipelines.{pipeline_of};
ghost use Rattle.tool_words.specs.declared.request.WordsRead.TheVariants.{Refused};
ghost use Rattle.tool_words.specs.Reading.{kind_text, outside_text, pipeline_read, pipeline_refused, settings_read, words_read};

use crate::command::{Given, parsed};
use crate::request::{Request, WordsRead};
use crate::settings::{Settings, settings_of};
use crate::texts::texts;
use edge_kit::Words;
use pipeline_text::{PipelineKind, PipelineRefusal, read_pipeline};
use std::alloc::{AllocError, Global};
use tree_model::{Bytes, NoMemory};

/// What the words ask for, or the text with which they are refused.
pub fn read_words(alloc: Global, words: &Words) -> Result<WordsRead, NoMemory>
    ensures { IfOk result (λ r. r ≡ words_read words.now) }
{
    match texts(alloc, words.as_slice())? {
        Some(texts) => with_texts(alloc, texts.as_slice()),
        None => outside(alloc),
    }
}

fn with_texts<'a>(alloc: Global, texts: &'a [&'a str]) -> Result<WordsRead, NoMemory>
    ensures { none_is_short (map (λ s. s.now) texts.entry.now) ≡ true
        → IfOk result (λ r. r ≡ settings_read (option_and_then settings_of (given_in (map (λ s. s.now) texts.entry.now)))) }
{
    match parsed(alloc, texts)? {
        Some(given) => with_given(alloc, given),
        None => outside(alloc),
    }
}

fn with_given(alloc: Global, given: Given<'_>) -> Result<WordsRead, NoMemory>
    ensures { IfOk result (λ r. r ≡ settings_read (settings_of (plain_given given.entry))) }
{
    match settings_of(alloc, given)? {
        Some(settings) => with_settings(alloc, settings),
        None => outside(alloc),
    }
}

fn outside(alloc: Global) -> Result<WordsRead, NoMemory>
    ensures { IfOk result (λ r. r ≡ Refused outside_text) }
{
    Ok(WordsRead::Refused(Bytes::from_slice(
        alloc,
        b"usage: the words are not in the command set",
    )?))
}

fn with_settings(alloc: Global, settings: Settings<'_>) -> Result<WordsRead, NoMemory>
    ensures { IfOk result (λ r. r ≡ settings_read (Some (plain_settings settings.entry))) }
{
    match read_pipeline(alloc, settings.pipeline.as_bytes()) {
        Ok(_) if settings.workers > 1 => Ok(WordsRead::Refused(Bytes::from_slice(
            alloc,
            b"usage: more than one worker needs run_tool",
        )?)),
        Ok(pipeline) => Ok(WordsRead::Asked(Request {
            pipeline,
            allowed: settings.allowed,
            run: settings.run,
        })),
        Err(PipelineRefusal::At { place, kind }) => {
            Ok(WordsRead::Refused(refused(alloc, place, kind)?))
        }
        Err(PipelineRefusal::NoMemory) => Err(AllocError),
    }
}

fn refused(alloc: Global, place: u64, kind: PipelineKind) -> Result<Bytes, NoMemory>
    ensures { IfOk result (λ b. b ≡ pipeline_refused (place, kind)) }
{
    let mut text = Bytes::from_slice(alloc, b"usage: pipeline at ")?;
    text.put_number(place)?;
    text.put(b": ")?;
    text.put(kind_text(kind))?;
    Ok(text)
}

fn kind_text(kind: PipelineKind) -> &'static [u8]
    ensures { result.now ≡ kind_text kind }
{
    match kind {
        PipelineKind::Expected => b"Expected",
        PipelineKind::UnknownPass => b"UnknownPass",
        PipelineKind::WrongAnchor => b"WrongAnchor",
        PipelineKind::UnknownOption => b"UnknownOption",
        PipelineKind::BadValue => b"BadValue",
    }
}
