//! Cuts a text into words.

ghost use Rattle.std.specs.Prelude.{◌≡◌, ◌≤◌, ◌<◌, ◌+◌, ◌^◌, IfOk, drop, length};
ghost use Rattle.std.specs.List.{prefix_len};
ghost use Rattle.mlir_lex.specs.Bytes.{is_digit};
ghost use Rattle.text_grammar.specs.Words.{AreWords, IsFirst, cut_kind, cut_len, mode_behind, one_if, part_kind, part_len, piece_of, word_of};

use crate::kinds::Kind;
use crate::long_numbers::is_long;
use crate::token_kinds::token_kind;
use crate::words::Word;
use mlir_lex::{LexFault, Lexer, Token, TokenKind, is_digit};
use std::alloc::{AllocError, Global};

/// What the words before say of the next.
#[derive(Clone, Copy, Drop)]
pub enum Mode {
    Plain,
    /// `memref` stands before it.
    BehindMemref,
    /// A dimension may come.
    Size,
    /// The `x` behind a dimension may come.
    By,
}

/// The words of a text, and the fault behind them, if there is one.
#[derive(Drop)]
pub struct Words {
    pub words: Vec<Word>,
    pub fault: Option<LexFault>,
}

/// All words of the text.
pub fn cut(alloc: Global, text: &[u8]) -> Result<Words, AllocError>
    requires { length text.now ≤ 2 ^ 24 }
    ensures { IfOk result (λ w. AreWords text.now w.words.items w.fault) }
{
    let mut words = Vec::new(alloc);
    let mut mode = Mode::Plain;
    let mut at = 0;
    'each: loop {
        let rest = behind(text, at);
        match first_token(rest) {
            Ok(Some(token)) => {
                let word = word_at(mode, at, rest, token);
                words.push(word)?;
                mode = mode_behind(mode, word.kind);
                at = word.end as usize;
            }
            Ok(None) => return Ok(Words { words, fault: None }),
            Err(fault) => {
                let place = at as u32 + fault.place;
                let fault = LexFault {
                    place,
                    kind: fault.kind,
                };
                return Ok(Words {
                    words,
                    fault: Some(fault),
                });
            }
        }
    }
}

/// What stands behind so many bytes.
fn behind(text: &[u8], count: usize) -> &[u8]
    ensures { result.now ≡ drop count text.now }
{
    let (_, rest) = text.split_at(count.min(text.len()));
    rest
}

/// The first token of a text.
fn first_token(text: &[u8]) -> Result<Option<Token>, LexFault>
    requires { length text.now ≤ 2 ^ 24 }
    ensures { IsFirst text.now result }
{
    let mut lexer = Lexer::new(text);
    lexer.next()
}

/// The word at the head of a token of the text, which begins at `at`.
#[tactic(auto, unfolding(crate::specs::Words::word_of))]
fn word_at(mode: Mode, at: usize, text: &[u8], token: Token) -> Word
    requires order { token.start < token.end }
    requires within { token.end ≤ length text.now }
    requires room { at + length text.now ≤ 2 ^ 24 }
    ensures is { result ≡ word_of mode token.kind (piece_of text.now token) (at + token.start) }
    ensures more { at < result.end }
    ensures bound { result.end ≤ at + length text.now }
{
    let piece = &text[token.start as usize..token.end as usize];
    let count = cut_len(mode, token.kind, piece);
    let kind = cut_kind(mode, token.kind, piece);
    let long = is_long(kind, &piece[..count]);
    let start = at as u32 + token.start;
    Word {
        kind,
        long,
        start,
        end: start + count as u32,
    }
}

#[tactic(auto, unfolding(crate::specs::Words::cut_len))]
fn cut_len(mode: Mode, kind: TokenKind, piece: &[u8]) -> usize
    requires { 0 < length piece.now }
    ensures len { result ≡ cut_len mode kind piece.now }
    ensures some { 0 < result }
    ensures bound { result ≤ length piece.now }
{
    let count = part_len(mode, kind, piece);
    if count == 0 { piece.len() } else { count }
}

#[tactic(auto, unfolding(crate::specs::Words::cut_kind))]
fn cut_kind(mode: Mode, kind: TokenKind, piece: &[u8]) -> Kind
    ensures { result ≡ cut_kind mode kind piece.now }
{
    if part_len(mode, kind, piece) == 0 {
        token_kind(kind, piece)
    } else {
        part_kind(mode)
    }
}

#[tactic(auto, unfolding(crate::specs::Words::part_len))]
fn part_len(mode: Mode, kind: TokenKind, piece: &[u8]) -> usize
    ensures len { result ≡ part_len mode kind piece.now }
    ensures bound { result ≤ length piece.now }
{
    match (mode, kind) {
        (Mode::Size, TokenKind::Number) => digits_len(piece),
        (Mode::Size, TokenKind::Sign) => one_if(b'?', piece),
        (Mode::By, TokenKind::Bare) => one_if(b'x', piece),
        _ => 0,
    }
}

fn one_if(b: u8, piece: &[u8]) -> usize
    ensures len { result ≡ one_if b piece.now }
    ensures bound { result ≤ length piece.now }
{
    match piece {
        [first, ..] => { if *first == b { 1 } else { 0 } }
        [] => 0,
    }
}

fn digits_len(piece: &[u8]) -> usize
    ensures len { result ≡ prefix_len is_digit piece.now }
    ensures bound { result ≤ length piece.now }
{
    for index in 0..piece.len() {
        if !is_digit(piece[index]) {
            return index;
        }
    }
    piece.len()
}

fn part_kind(mode: Mode) -> Kind
    ensures { result ≡ part_kind mode }
{
    match mode {
        Mode::By => Kind::DimensionX,
        _ => Kind::Dimension,
    }
}

fn mode_behind(mode: Mode, kind: Kind) -> Mode
    ensures { result ≡ mode_behind mode kind }
{
    match (mode, kind) {
        (_, Kind::WordMemref) => Mode::BehindMemref,
        (Mode::BehindMemref, Kind::Less) => Mode::Size,
        (_, Kind::Dimension) => Mode::By,
        (_, Kind::DimensionX) => Mode::Size,
        _ => Mode::Plain,
    }
}
