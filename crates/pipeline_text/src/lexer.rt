//! Cuts a text into tokens.

ghost use Rattle.std.specs.Prelude.{◌≡◌, IfOk, OnOk, ◌++◌, ◌≤◌, List, take, drop, ◌-◌, length};
ghost use Rattle.pipeline_text.specs.Passes.{pass_text};
ghost use Rattle.pipeline_text.specs.Words.{kind_text, word_kind, byte_kind, in_word, is_blank, closed, alone, tokens_of};

use crate::pass::{Anchor, PassName};
use crate::token::{Kind, Token};
use sqlite_items::Items;
use std::alloc::Global;
use tree_model::NoMemory;

/// The kinds that are one word.
const WORDS: [Kind; 14] = [
    Kind::Module,
    Kind::OnEach(Anchor::FuncFunc),
    Kind::OnEach(Anchor::LlvmFunc),
    Kind::Pass(PassName::ConvertScfToCf),
    Kind::Pass(PassName::ArithExpand),
    Kind::Pass(PassName::ConvertArithToLlvm),
    Kind::Pass(PassName::ConvertCfToLlvm),
    Kind::Pass(PassName::ConvertFuncToLlvm),
    Kind::Pass(PassName::FinalizeMemrefToLlvm),
    Kind::Pass(PassName::ReconcileUnrealizedCasts),
    Kind::Pass(PassName::FullConvertToLlvm),
    Kind::Width,
    Kind::Zero,
    Kind::SixtyFour,
];

/// The name of a pass in a text.
pub fn pass_text(pass: PassName) -> &'static [u8]
    ensures { result.now ≡ pass_text pass }
{
    match pass {
        PassName::ConvertScfToCf => b"convert-scf-to-cf",
        PassName::ArithExpand => b"arith-expand",
        PassName::ConvertArithToLlvm => b"convert-arith-to-llvm",
        PassName::ConvertCfToLlvm => b"convert-cf-to-llvm",
        PassName::ConvertFuncToLlvm => b"convert-func-to-llvm",
        PassName::FinalizeMemrefToLlvm => b"finalize-memref-to-llvm",
        PassName::ReconcileUnrealizedCasts => b"reconcile-unrealized-casts",
        PassName::FullConvertToLlvm => b"full-convert-to-llvm",
    }
}

/// How a kind that is one word is written.
pub fn kind_text(kind: Kind) -> &'static [u8]
    ensures { result.now ≡ kind_text kind }
{
    match kind {
        Kind::Module => b"builtin.module",
        Kind::OnEach(Anchor::FuncFunc) => b"func.func",
        Kind::OnEach(Anchor::LlvmFunc) => b"llvm.func",
        Kind::Pass(pass) => pass_text(pass),
        Kind::Width => b"index-bitwidth",
        Kind::Zero => b"0",
        Kind::SixtyFour => b"64",
        _ => b"",
    }
}

#[tactic(auto, unfolding(crate::specs::Words::word_kind))]
fn word_kind(word: &[u8]) -> Kind
    ensures { result ≡ word_kind word.now }
{
    'each: for kind in WORDS.iter() {
        if kind_text(*kind) == word {
            return *kind;
        }
    }
    Kind::OtherWord
}

fn byte_kind(byte: u8) -> Kind
    ensures { result ≡ byte_kind byte }
{
    match byte {
        b'(' => Kind::Open,
        b')' => Kind::Close,
        b'{' => Kind::OpenBrace,
        b'}' => Kind::CloseBrace,
        b'=' => Kind::Equals,
        b',' => Kind::Comma,
        _ => Kind::OtherByte,
    }
}

fn is_in_word(byte: u8) -> bool
    ensures { result ≡ in_word byte }
{
    matches!(byte, b'a'..=b'z' | b'A'..=b'Z' | b'0'..=b'9' | b'_' | b'-' | b'.')
}

fn is_blank(byte: u8) -> bool
    ensures { result ≡ is_blank byte }
{
    byte == b' ' || byte == b'\t'
}

/// Adds the word that ends at a place, if there is one.
fn close_word(
    tokens: &mut Items<Token>,
    text: &[u8],
    start: usize,
    at: usize,
) -> Result<(), NoMemory>
    requires in_order { start ≤ at }
    requires in_text { at ≤ length text.now }
    ensures { OnOk result (tokens.new ≡ tokens.old ++ closed (take (at - start) (drop start text.now)) at) }
{
    if start < at {
        let kind = word_kind(&text[start..at]);
        tokens.push(Token { kind, start })?;
    }
    Ok(())
}

/// Adds the word that ends before a byte, and the byte, if it is no blank.
fn add_byte(
    tokens: &mut Items<Token>,
    text: &[u8],
    start: usize,
    at: usize,
    byte: u8,
) -> Result<(), NoMemory>
    requires in_order { start ≤ at }
    requires in_text { at ≤ length text.now }
    ensures { OnOk result (tokens.new ≡ tokens.old ++ closed (take (at - start) (drop start text.now)) at ++ alone at byte) }
{
    close_word(tokens, text, start, at)?;
    if !is_blank(byte) {
        tokens.push(Token {
            kind: byte_kind(byte),
            start: at,
        })?;
    }
    Ok(())
}

/// The tokens of a text.
pub fn lex(alloc: Global, text: &[u8]) -> Result<Items<Token>, NoMemory>
    ensures { IfOk result (λ tokens. tokens ≡ tokens_of text.now) }
{
    let mut tokens = Items::new(alloc);
    let mut start = 0;
    'each: for (at, byte) in text.iter().enumerate() {
        if !is_in_word(*byte) {
            add_byte(&mut tokens, text, start, at, *byte)?;
            start = at + 1;
        }
    }
    close_word(&mut tokens, text, start, text.len())?;
    Ok(tokens)
}
