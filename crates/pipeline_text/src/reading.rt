//! Reads a pipeline text.

ghost use Rattle.std.specs.Prelude.{◌≡◌, List, IfOk, Ok, Err};
ghost use Rattle.grammar_model.specs.Expected.{IsExpected};
ghost use Rattle.grammar_model.specs.Stopping.{Gives, StopsExpected};
ghost use Rattle.pipeline_text.specs.Grammar.{pipeline};
ghost use Rattle.pipeline_text.specs.declared.pass.Stage.{Stage};
ghost use Rattle.pipeline_text.specs.Words.{tokens_of};
ghost use Rattle.pipeline_text.specs.Reading.{ReadsAs, AnswersWith, RefusesRightly, first_kind, last_kind, place_of};

use crate::lexer::lex;
use crate::pass::Pipeline;
use crate::reader::read_all;
use crate::refusal::{PipelineRefusal, wrong};
use crate::token::{Kind, Token};
use grammar_model::Stop;
use std::alloc::Global;

/// The pipeline that a text says.
pub fn read_pipeline(alloc: Global, text: &[u8]) -> Result<Pipeline, PipelineRefusal>
    ensures found { IfOk result (λ p. ReadsAs text.now p.stages) }
    ensures only { (stages : List Stage) → ReadsAs text.now stages → AnswersWith result stages }
    ensures refused { RefusesRightly text.now result }
{
    let tokens = lex(alloc, text)?;
    match read_tokens(alloc, tokens.as_slice()) {
        Ok(pipeline) => Ok(pipeline),
        Err(Stop::Memory) => Err(PipelineRefusal::NoMemory),
        Err(Stop::At(rest)) => Err(refusal(text, tokens.as_slice(), rest)),
    }
}

/// The pipeline that tokens say.
fn read_tokens(alloc: Global, tokens: &[Token]) -> Result<Pipeline, Stop<'_, Token>>
    ensures found { IfOk result (λ p. pipeline.Written p.stages tokens.now) }
    ensures refused { StopsExpected pipeline tokens.now result }
    ensures only { (stages : List Stage) → pipeline.Written stages tokens.now → Gives (λ p. p.stages) result (Ok stages) }
{
    read_all(alloc, tokens)
}

/// The place and the kind of what is left from the first token that does not fit.
fn refusal(text: &[u8], tokens: &[Token], rest: &[Token]) -> PipelineRefusal
    requires of_text { tokens.now ≡ tokens_of text.now }
    requires expected { IsExpected pipeline tokens.now rest.now }
    ensures { RefusesRightly text.now (Err result) }
{
    let before = &tokens[..tokens.len() - rest.len()];
    let kind = wrong(last_kind(before), first_kind(rest));
    PipelineRefusal::At {
        place: place_of(text, rest),
        kind,
    }
}

fn first_kind(tokens: &[Token]) -> Option<Kind>
    ensures { result ≡ first_kind tokens.now }
{
    match tokens.first() {
        Some(token) => Some(token.kind),
        None => None,
    }
}

fn last_kind(tokens: &[Token]) -> Option<Kind>
    ensures { result ≡ last_kind tokens.now }
{
    match tokens.last() {
        Some(token) => Some(token.kind),
        None => None,
    }
}

fn place_of(text: &[u8], rest: &[Token]) -> u64
    ensures { result ≡ place_of text.now rest.now }
{
    match rest.first() {
        Some(token) => token.start as u64,
        None => text.len() as u64,
    }
}
