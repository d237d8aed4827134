//! Reads tokens as the grammar says.

ghost use Rattle.std.specs.Prelude.{◌≡◌, List, [], ◌∷◌};
ghost use Rattle.grammar_model.specs.Syntax.{begins, token, many, maybe, with_front, ◌▸◌, listed};
ghost use Rattle.grammar_model.specs.Expected.{whole_of};
ghost use Rattle.grammar_model.specs.Stopping.{Gives};
ghost use Rattle.pipeline_text.specs.Kinds.{kind_of, fits};
ghost use Rattle.pipeline_text.specs.Grammar.{pass_of, anchor_of, bits_of, pass_word, anchor_word, value_word, option_part, wide_part, plain_part, pass_part, nested_part, whole_part, item_part, pipeline};

use crate::pass::{Anchor, PassName, PassUse, Pipeline, Stage};
use crate::token::{Kind, Level, Token, Wanted, fit};
use grammar_model::Stop;
use sqlite_items::Items;
use std::alloc::Global;

/// How wide `index` is where no option says it.
const USUAL_BITS: u32 = 64;

/// The pass of a token that is one.
fn pass_of(token: Token) -> PassName
    ensures { result ≡ pass_of token }
{
    match token.kind {
        Kind::Pass(pass) => pass,
        _ => PassName::ConvertScfToCf,
    }
}

/// The anchor of a token that is one.
fn anchor_of(token: Token) -> Anchor
    ensures { result ≡ anchor_of token }
{
    match token.kind {
        Kind::OnEach(anchor) => anchor,
        _ => Anchor::FuncFunc,
    }
}

/// How wide `index` is by a token that is a value.
fn bits_of(token: Token) -> u32
    ensures { result ≡ bits_of token }
{
    match token.kind {
        Kind::Zero | Kind::SixtyFour => 64,
        _ => USUAL_BITS,
    }
}

/// Whether the next token fits.
fn next_fits(wanted: Wanted, tokens: &[Token]) -> bool
    ensures { result ≡ begins kind_of (fits wanted) tokens.now }
{
    match tokens.first() {
        Some(first) => fit(wanted, first.kind),
        None => false,
    }
}

/// The next token, if it fits.
fn take(wanted: Wanted, tokens: &[Token]) -> Result<(Token, &[Token]), Stop<'_, Token>>
    ensures { Gives (λ x. (x.0, x.1.now)) result ((token {kind = kind_of} (fits wanted)).read tokens.now) }
{
    match tokens.split_first() {
        Some((first, rest)) if fit(wanted, first.kind) => Ok((*first, rest)),
        _ => Err(Stop::At(tokens)),
    }
}

#[tactic(auto, unfolding(crate::specs::Grammar::pass_word))]
fn read_pass_word(wanted: Wanted, tokens: &[Token]) -> Result<(PassName, &[Token]), Stop<'_, Token>>
    ensures { Gives (λ x. (x.0, x.1.now)) result ((pass_word wanted).read tokens.now) }
{
    let (word, rest) = take(wanted, tokens)?;
    Ok((pass_of(word), rest))
}

#[tactic(auto, unfolding(crate::specs::Grammar::anchor_word))]
fn read_anchor(tokens: &[Token]) -> Result<(Anchor, &[Token]), Stop<'_, Token>>
    ensures { Gives (λ x. (x.0, x.1.now)) result (anchor_word.read tokens.now) }
{
    let (word, rest) = take(Wanted::OnEach, tokens)?;
    Ok((anchor_of(word), rest))
}

#[tactic(auto, unfolding(crate::specs::Grammar::value_word))]
fn read_value(tokens: &[Token]) -> Result<(u32, &[Token]), Stop<'_, Token>>
    ensures { Gives (λ x. (x.0, x.1.now)) result (value_word.read tokens.now) }
{
    let (value, rest) = take(Wanted::Value, tokens)?;
    Ok((bits_of(value), rest))
}

#[tactic(auto, unfolding(crate::specs::Grammar::option_part))]
fn read_option(name: Wanted, tokens: &[Token]) -> Result<(u32, &[Token]), Stop<'_, Token>>
    ensures { Gives (λ x. (x.0, x.1.now)) result ((option_part name).read tokens.now) }
{
    let (_, rest) = take(Wanted::OpenBrace, tokens)?;
    let (_, rest) = take(name, rest)?;
    let (_, rest) = take(Wanted::Equals, rest)?;
    let (bits, rest) = read_value(rest)?;
    let (_, rest) = take(Wanted::CloseBrace, rest)?;
    Ok((bits, rest))
}

#[tactic(auto, unfolding(crate::specs::Grammar::option_part))]
fn option_next(name: Wanted, tokens: &[Token]) -> bool
    ensures { result ≡ begins kind_of (option_part name).starts tokens.now }
{
    next_fits(Wanted::OpenBrace, tokens)
}

fn read_maybe_option(
    name: Wanted,
    tokens: &[Token],
) -> Result<(Option<u32>, &[Token]), Stop<'_, Token>>
    ensures { Gives (λ x. (x.0, x.1.now)) result ((maybe (option_part name)).read tokens.now) }
{
    if !option_next(name, tokens) {
        return Ok((None, tokens));
    }
    let (bits, rest) = read_option(name, tokens)?;
    Ok((Some(bits), rest))
}

#[tactic(auto, unfolding(crate::specs::Grammar::wide_part))]
fn read_wide(level: Level, tokens: &[Token]) -> Result<(PassUse, &[Token]), Stop<'_, Token>>
    ensures { Gives (λ x. (x.0, x.1.now)) result ((wide_part level).read tokens.now) }
{
    let (pass, rest) = read_pass_word(Wanted::WidePass(level), tokens)?;
    let (bits, rest) = read_maybe_option(Wanted::Width, rest)?;
    Ok((
        PassUse {
            pass,
            bits: bits.unwrap_or(USUAL_BITS),
        },
        rest,
    ))
}

#[tactic(auto, unfolding(crate::specs::Grammar::plain_part))]
fn read_plain(level: Level, tokens: &[Token]) -> Result<(PassUse, &[Token]), Stop<'_, Token>>
    ensures { Gives (λ x. (x.0, x.1.now)) result ((plain_part level).read tokens.now) }
{
    let (pass, rest) = read_pass_word(Wanted::PlainPass(level), tokens)?;
    let (bits, rest) = read_maybe_option(Wanted::NoOption, rest)?;
    Ok((
        PassUse {
            pass,
            bits: bits.unwrap_or(USUAL_BITS),
        },
        rest,
    ))
}

#[tactic(auto, unfolding(crate::specs::Grammar::wide_part, crate::specs::Grammar::pass_word))]
fn wide_next(level: Level, tokens: &[Token]) -> bool
    ensures { result ≡ begins kind_of (wide_part level).starts tokens.now }
{
    next_fits(Wanted::WidePass(level), tokens)
}

#[tactic(auto, unfolding(crate::specs::Grammar::pass_part))]
fn read_pass(level: Level, tokens: &[Token]) -> Result<(PassUse, &[Token]), Stop<'_, Token>>
    ensures { Gives (λ x. (x.0, x.1.now)) result ((pass_part level).read tokens.now) }
{
    if wide_next(level, tokens) {
        read_wide(level, tokens)
    } else {
        read_plain(level, tokens)
    }
}

#[tactic(auto, unfolding(crate::specs::Grammar::pass_part, crate::specs::Grammar::wide_part, crate::specs::Grammar::plain_part, crate::specs::Grammar::pass_word))]
fn pass_next(level: Level, tokens: &[Token]) -> bool
    ensures { result ≡ begins kind_of (pass_part level).starts tokens.now }
{
    next_fits(Wanted::WidePass(level), tokens) || next_fits(Wanted::PlainPass(level), tokens)
}

fn read_next_pass(tokens: &[Token]) -> Result<(PassUse, &[Token]), Stop<'_, Token>>
    ensures { Gives (λ x. (x.0, x.1.now)) result ((fits Wanted.Comma ▸ pass_part Level.Nested).read tokens.now) }
{
    let (_, rest) = take(Wanted::Comma, tokens)?;
    let (pass, rest) = read_pass(Level::Nested, rest)?;
    Ok((pass, rest))
}

/// Passes with a comma before each, behind a first one.
fn read_more_passes(
    alloc: Global,
    first: PassUse,
    tokens: &[Token],
) -> Result<(Items<PassUse>, &[Token]), Stop<'_, Token>>
    ensures { Gives (λ x. (x.0, x.1.now)) result (with_front (first ∷ []) ((many (fits Wanted.Comma ▸ pass_part Level.Nested)).read tokens.now)) }
{
    let mut found = Items::new(alloc);
    found.push(first)?;
    let mut rest = tokens;
    'each: for _ in 0..tokens.len() {
        if !next_fits(Wanted::Comma, rest) {
            return Ok((found, rest));
        }
        let (pass, behind) = read_next_pass(rest)?;
        found.push(pass)?;
        rest = behind;
    }
    Ok((found, rest))
}

fn read_passes(
    alloc: Global,
    tokens: &[Token],
) -> Result<(Items<PassUse>, &[Token]), Stop<'_, Token>>
    ensures { Gives (λ x. (x.0, x.1.now)) result ((listed (fits Wanted.Comma) (pass_part Level.Nested)).read tokens.now) }
{
    if !pass_next(Level::Nested, tokens) {
        return Ok((Items::new(alloc), tokens));
    }
    let (first, rest) = read_pass(Level::Nested, tokens)?;
    read_more_passes(alloc, first, rest)
}

#[tactic(auto, unfolding(crate::specs::Grammar::nested_part))]
fn read_nested(alloc: Global, tokens: &[Token]) -> Result<(Stage, &[Token]), Stop<'_, Token>>
    ensures { Gives (λ x. (x.0, x.1.now)) result (nested_part.read tokens.now) }
{
    let (anchor, rest) = read_anchor(tokens)?;
    let (_, rest) = take(Wanted::Open, rest)?;
    let (passes, rest) = read_passes(alloc, rest)?;
    let (_, rest) = take(Wanted::Close, rest)?;
    Ok((Stage::Each(anchor, passes), rest))
}

#[tactic(auto, unfolding(crate::specs::Grammar::whole_part))]
fn read_whole(tokens: &[Token]) -> Result<(Stage, &[Token]), Stop<'_, Token>>
    ensures { Gives (λ x. (x.0, x.1.now)) result (whole_part.read tokens.now) }
{
    let (pass, rest) = read_pass(Level::Module, tokens)?;
    Ok((Stage::Whole(pass), rest))
}

#[tactic(auto, unfolding(crate::specs::Grammar::whole_part))]
fn whole_next(tokens: &[Token]) -> bool
    ensures { result ≡ begins kind_of whole_part.starts tokens.now }
{
    pass_next(Level::Module, tokens)
}

#[tactic(auto, unfolding(crate::specs::Grammar::item_part))]
fn read_item(alloc: Global, tokens: &[Token]) -> Result<(Stage, &[Token]), Stop<'_, Token>>
    ensures { Gives (λ x. (x.0, x.1.now)) result (item_part.read tokens.now) }
{
    if whole_next(tokens) {
        read_whole(tokens)
    } else {
        read_nested(alloc, tokens)
    }
}

#[tactic(auto, unfolding(crate::specs::Grammar::item_part, crate::specs::Grammar::nested_part, crate::specs::Grammar::anchor_word))]
fn item_next(tokens: &[Token]) -> bool
    ensures { result ≡ begins kind_of item_part.starts tokens.now }
{
    whole_next(tokens) || next_fits(Wanted::OnEach, tokens)
}

fn read_next_item(alloc: Global, tokens: &[Token]) -> Result<(Stage, &[Token]), Stop<'_, Token>>
    ensures { Gives (λ x. (x.0, x.1.now)) result ((fits Wanted.Comma ▸ item_part).read tokens.now) }
{
    let (_, rest) = take(Wanted::Comma, tokens)?;
    let (stage, rest) = read_item(alloc, rest)?;
    Ok((stage, rest))
}

/// Stages with a comma before each, behind a first one.
fn read_more_items(
    alloc: Global,
    first: Stage,
    tokens: &[Token],
) -> Result<(Items<Stage>, &[Token]), Stop<'_, Token>>
    ensures { Gives (λ x. (x.0, x.1.now)) result (with_front (first ∷ []) ((many (fits Wanted.Comma ▸ item_part)).read tokens.now)) }
{
    let mut found = Items::new(alloc);
    found.push(first)?;
    let mut rest = tokens;
    'each: for _ in 0..tokens.len() {
        if !next_fits(Wanted::Comma, rest) {
            return Ok((found, rest));
        }
        let (stage, behind) = read_next_item(alloc, rest)?;
        found.push(stage)?;
        rest = behind;
    }
    Ok((found, rest))
}

fn read_items(alloc: Global, tokens: &[Token]) -> Result<(Items<Stage>, &[Token]), Stop<'_, Token>>
    ensures { Gives (λ x. (x.0, x.1.now)) result ((listed (fits Wanted.Comma) item_part).read tokens.now) }
{
    if !item_next(tokens) {
        return Ok((Items::new(alloc), tokens));
    }
    let (first, rest) = read_item(alloc, tokens)?;
    read_more_items(alloc, first, rest)
}

#[tactic(auto, unfolding(crate::specs::Grammar::pipeline))]
/// All of the tokens.
pub fn read_all(alloc: Global, tokens: &[Token]) -> Result<Pipeline, Stop<'_, Token>>
    ensures { Gives (λ p. p.stages) result (whole_of pipeline tokens.now) }
{
    let (_, rest) = take(Wanted::Module, tokens)?;
    let (_, rest) = take(Wanted::Open, rest)?;
    let (stages, rest) = read_items(alloc, rest)?;
    let (_, rest) = take(Wanted::Close, rest)?;
    if !rest.is_empty() {
        return Err(Stop::At(rest));
    }
    Ok(Pipeline { stages })
}
