//! What names spell, by their numbers.

ghost use Rattle.std.specs.Prelude.{◌≡◌, ◌≤◌, ◌^◌, ◌%◌, IfOk, drop};
ghost use Rattle.std.specs.Str.{bytes_eq};
ghost use Rattle.text_grammar.specs.TokenKinds.{value_from};
ghost use Rattle.text_events.specs.Source.{bytes_of, capped_value, index_of, is_hexadecimal, is_void, number_in, number_of, piece_or, size_of, spelled_of, spelled_or, width_of, word_of};
ghost use Rattle.text_events.specs.Spelling.{spelled};

use crate::spelling::{core, digit_value, piece, unescaped};
use std::alloc::{AllocError, Global};
use text_grammar::Word;

/// A text and its words: what the number of a name spells.
#[derive(Clone, Copy, Drop)]
pub struct Source<'t> {
    pub text: &'t [u8],
    pub words: &'t [Word],
}

impl<'t> Source<'t> {
    fn word(&self, name: u32) -> Option<Word>
        ensures { result ≡ word_of self.now.words.now name }
    {
        self.words.get(name as usize).copied()
    }

    /// The bytes of the word of this name, none where there is no such word.
    pub fn bytes(&self, name: u32) -> &[u8]
        ensures { result.now ≡ bytes_of self.now.text.now self.now.words.now name }
    {
        piece_or(self.text, self.word(name))
    }

    /// The value of the number of this name; one above 2^128 - 1 counts as that.
    #[tactic(auto, unfolding(crate::specs::Source::number_of))]
    pub fn number(&self, name: u32) -> u128
        ensures { result ≡ number_of self.now.text.now self.now.words.now name }
    {
        number_in(self.bytes(name))
    }

    /// The value behind `#` of the name.
    #[tactic(auto, unfolding(crate::specs::Source::index_of))]
    pub fn index(&self, name: u32) -> u128
        ensures { result ≡ index_of self.now.text.now self.now.words.now name }
    {
        let bytes = self.bytes(name);
        capped_value(10, behind(bytes, 1))
    }

    /// The size of a dimension, none for `?`.
    #[tactic(auto, unfolding(crate::specs::Source::size_of))]
    pub fn size(&self, name: u32) -> Option<u128>
        ensures { result ≡ size_of self.now.text.now self.now.words.now name }
    {
        let bytes = self.bytes(name);
        if same(bytes, b"?") {
            None
        } else {
            Some(capped_value(10, bytes))
        }
    }

    /// The width of an integer type, none for `index`.
    #[tactic(auto, unfolding(crate::specs::Source::width_of))]
    pub fn width(&self, name: u32) -> Option<u32>
        ensures { result ≡ width_of self.now.text.now self.now.words.now name }
    {
        let bytes = self.bytes(name);
        if same(bytes, b"index") {
            None
        } else {
            Some(low_bits(capped_value(10, behind(bytes, 1))))
        }
    }

    /// Whether a plain type of the llvm dialect is `void`.
    #[tactic(auto, unfolding(crate::specs::Source::is_void))]
    pub fn is_void(&self, name: u32) -> bool
        ensures { result ≡ is_void self.now.text.now self.now.words.now name }
    {
        let bytes = self.bytes(name);
        same(bytes, b"void") || same(bytes, b"!llvm.void")
    }

    /// What the name spells, with what stands for each escape.
    pub fn spelled(&self, alloc: Global, name: u32) -> Result<Vec<u8>, AllocError>
        ensures { IfOk result (λ v. v.items ≡ spelled_of self.now.text.now self.now.words.now name) }
    {
        match self.word(name) {
            Some(word) => spelled_word(alloc, self.text, word),
            None => Ok(Vec::new(alloc)),
        }
    }
}

/// What the word spells.
#[tactic(auto, unfolding(crate::specs::Spelling::spelled))]
pub fn spelled_word(alloc: Global, text: &[u8], word: Word) -> Result<Vec<u8>, AllocError>
    ensures { IfOk result (λ v. v.items ≡ spelled text.now word) }
{
    unescaped(alloc, core(word.kind, piece(text, word)))
}

fn piece_or(text: &[u8], word: Option<Word>) -> &[u8]
    ensures { result.now ≡ piece_or text.now word }
{
    match word {
        Some(word) => piece(text, word),
        None => &[],
    }
}

/// Whether two texts have the same bytes.
fn same(one: &[u8], other: &[u8]) -> bool
    ensures { result ≡ bytes_eq one.now other.now }
{
    one == other
}

/// What stands behind so many bytes.
fn behind(bytes: &[u8], count: usize) -> &[u8]
    ensures { result.now ≡ drop count bytes.now }
{
    let (_, rest) = bytes.split_at(count.min(bytes.len()));
    rest
}

fn low_bits(value: u128) -> u32
    ensures { result ≡ value % 2 ^ 32 }
{
    (value % 4294967296) as u32
}

fn number_in(bytes: &[u8]) -> u128
    ensures { result ≡ number_in bytes.now }
{
    if is_hexadecimal(bytes) {
        capped_value(16, behind(bytes, 2))
    } else {
        capped_value(10, bytes)
    }
}

fn is_hexadecimal(bytes: &[u8]) -> bool
    ensures { result ≡ is_hexadecimal bytes.now }
{
    match bytes {
        [a, b, ..] => *a == 48 && *b == 120,
        _ => false,
    }
}

/// The value of digits; one above 2^128 - 1 counts as that.
fn capped_value(base: u8, digits: &[u8]) -> u128
    requires { 1 ≤ base }
    ensures { result ≡ capped_value base digits.now }
{
    let mut value: u128 = 0;
    'each: for digit in digits {
        let Some(shifted) = value.checked_mul(base as u128) else {
            return u128::MAX;
        };
        let Some(sum) = shifted.checked_add(digit_value(*digit) as u128) else {
            return u128::MAX;
        };
        value = sum;
    }
    value
}
