//! What the words of a text spell.

ghost use Rattle.std.specs.Prelude.{◌≡◌, ◌*◌, ◌+◌, ◌%◌, ℕ, List, ◌∷◌, IfOk, OnOk, ◌++◌, map};
ghost use Rattle.text_grammar.specs.declared.words.Word.{Word};
ghost use Rattle.mlir_lex.specs.Bytes.{is_short_escape};
ghost use Rattle.text_grammar.specs.TokenKinds.{digit_value};
ghost use Rattle.text_events.specs.Decoded.{decoded_of, has_escape, left};
ghost use Rattle.text_events.specs.Spelling.{between, core, inside, is_quoted, piece, short_escape, spelled, unescaped, unquoted};

use std::alloc::{AllocError, Global};
use text_grammar::{Kind, Word};

/// What comes next where escapes are replaced.
#[derive(Clone, Copy, Drop)]
pub enum Waits {
    /// A byte that stands for itself, or a `\`.
    Byte,
    /// What stands behind a `\`.
    Escape,
    /// The second digit of an escape, behind a first one of this value.
    Digit(u8),
}

/// The bytes from `start` up to `end`, as far as the text has them.
pub fn between(text: &[u8], start: usize, end: usize) -> &[u8]
    ensures { result.now ≡ between text.now start end }
{
    let (_, rest) = text.split_at(start.min(text.len()));
    let (front, _) = rest.split_at(end.saturating_sub(start).min(rest.len()));
    front
}

/// The bytes of a word.
pub fn piece(text: &[u8], word: Word) -> &[u8]
    ensures { result.now ≡ piece text.now word }
{
    between(text, word.start as usize, word.end as usize)
}

/// What stands between the quotes.
fn inside(bytes: &[u8]) -> &[u8]
    ensures { result.now ≡ inside bytes.now }
{
    between(bytes, 1, bytes.len().saturating_sub(1))
}

fn is_quoted(bytes: &[u8]) -> bool
    ensures { result ≡ is_quoted bytes.now }
{
    match bytes.first() {
        Some(b) => *b == 34,
        None => false,
    }
}

fn unquoted(bytes: &[u8]) -> &[u8]
    ensures { result.now ≡ unquoted bytes.now }
{
    if is_quoted(bytes) {
        inside(bytes)
    } else {
        bytes
    }
}

/// The bytes of a word without quotes, and without the sign of a symbol.
#[tactic(auto, unfolding(crate::specs::Spelling::core))]
pub fn core(kind: Kind, bytes: &[u8]) -> &[u8]
    ensures { result.now ≡ core kind bytes.now }
{
    match kind {
        Kind::Text => inside(bytes),
        Kind::SymbolName => unquoted(between(bytes, 1, bytes.len())),
        _ => bytes,
    }
}

/// Whether there is an escape among the bytes.
pub fn has_escape(bytes: &[u8]) -> bool
    ensures { result ≡ has_escape bytes.now }
{
    bytes.iter().any(|b| *b == 92)
}

/// The value of a digit, also of a hexadecimal one.
pub fn digit_value(b: u8) -> u8
    ensures { result ≡ digit_value b }
{
    if b <= b'9' {
        b.saturating_sub(48)
    } else if b <= b'F' {
        b.saturating_sub(55)
    } else {
        b.saturating_sub(87)
    }
}

/// Whether the byte behind a `\` is an escape by itself.
#[tactic(auto, unfolding(mlir_lex::specs::Bytes::is_short_escape))]
fn is_short_escape(b: u8) -> bool
    ensures { result ≡ is_short_escape b }
{
    b == b'n' || b == b't' || b == b'\\' || b == b'"'
}

fn short_escape(b: u8) -> u8
    ensures { result ≡ short_escape b }
{
    match b {
        b'n' => 10,
        b't' => 9,
        _ => b,
    }
}

/// The byte of an escape of two hexadecimal digits.
fn hex_byte(value: u8, b: u8) -> u8
    ensures { result ≡ (value * 16 + digit_value b) % 256 }
{
    ((value as u32 * 16 + digit_value(b) as u32) % 256) as u8
}

/// Takes one byte.
fn take(out: &mut Vec<u8>, waits: Waits, b: u8) -> Result<Waits, AllocError>
    ensures { (rest : List ℕ) → IfOk result (λ next. out.new.items ++ left next rest ≡ out.old.items ++ left waits (b ∷ rest)) }
{
    match waits {
        Waits::Byte => {
            if b == 92 {
                return Ok(Waits::Escape);
            }
            out.push(b)?;
            Ok(Waits::Byte)
        }
        Waits::Escape => {
            if !is_short_escape(b) {
                return Ok(Waits::Digit(digit_value(b)));
            }
            out.push(short_escape(b))?;
            Ok(Waits::Byte)
        }
        Waits::Digit(value) => {
            out.push(hex_byte(value, b))?;
            Ok(Waits::Byte)
        }
    }
}

/// The bytes with what stands for each escape in its place.
pub fn unescaped(alloc: Global, bytes: &[u8]) -> Result<Vec<u8>, AllocError>
    ensures { IfOk result (λ v. v.items ≡ unescaped bytes.now) }
{
    let mut out = Vec::new(alloc);
    let mut waits = Waits::Byte;
    'each: for b in bytes {
        waits = take(&mut out, waits, *b)?;
    }
    Ok(out)
}

/// Puts what the word spells behind the others, where it has an escape.
#[tactic(auto, unfolding(crate::specs::Spelling::spelled))]
fn gather(
    alloc: Global,
    text: &[u8],
    word: Word,
    found: &mut Vec<Vec<u8>>,
) -> Result<(), AllocError>
    ensures { (rest : List Word) → OnOk result (map (λ bytes. bytes.items) found.new.items ++ decoded_of text.now rest
        ≡ map (λ bytes. bytes.items) found.old.items ++ decoded_of text.now (word ∷ rest)) }
{
    let bytes = core(word.kind, piece(text, word));
    if has_escape(bytes) {
        let spelled = unescaped(alloc, bytes)?;
        found.push(spelled)?;
    }
    Ok(())
}

/// What the words with escapes spell, in order.
pub fn decoded(alloc: Global, text: &[u8], words: &[Word]) -> Result<Vec<Vec<u8>>, AllocError>
    ensures { IfOk result (λ v. map (λ bytes. bytes.items) v.items ≡ decoded_of text.now words.now) }
{
    let mut found = Vec::new(alloc);
    'each: for word in words {
        gather(alloc, text, *word, &mut found)?;
    }
    Ok(found)
}
