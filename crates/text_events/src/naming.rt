//! The numbers of names.

ghost use Rattle.std.specs.Prelude.{◌≡◌, ◌++◌, ◌∷◌, [], ℕ, List, IfOk, OnOk, length, map, drop};
ghost use Rattle.text_grammar.specs.declared.words.Word.{Word};
ghost use Rattle.text_events.specs.Decoded.{decoded_of};
ghost use Rattle.text_events.specs.Names.{is_sign, names_of, name_of};
ghost use Rattle.text_events.specs.Spelling.{spelled};
ghost use Rattle.text_events.specs.SeenNames.{Stands};

use crate::spelling::{core, decoded, has_escape, piece};
use std::alloc::{AllocError, Global};
use std::collections::HashMap;
use text_grammar::{Kind, Word};

/// The names so far, each with its number.
#[derive(Drop)]
struct Seen<'t> {
    numbers: HashMap<&'t [u8], u32>,
}

/// The number of each word: the place of the first one that spells the same. A text of 2^32 words is want of memory.
pub fn names(alloc: Global, text: &[u8], words: &[Word]) -> Result<Vec<u32>, AllocError>
    ensures { IfOk result (λ v. v.items ≡ names_of text.now words.now) }
{
    let decoded = decoded(alloc, text, words)?;
    names_by(alloc, text, words, &decoded)
}

/// The same, with what the words with escapes spell.
fn names_by(
    alloc: Global,
    text: &[u8],
    words: &[Word],
    decoded: &[Vec<u8>],
) -> Result<Vec<u32>, AllocError>
    requires { map (λ bytes. bytes.items) decoded.now ≡ decoded_of text.now words.now }
    ensures { IfOk result (λ v. v.items ≡ names_of text.now words.now) }
{
    let mut found = Vec::with_capacity(alloc, words.len())?;
    let mut seen = Seen {
        numbers: HashMap::new(alloc),
    };
    let mut next = 0;
    'each: for (index, word) in words.iter().enumerate() {
        let (bytes, behind) = spelled(text, *word, decoded, next);
        next = behind;
        let number = number_of(&mut seen, word.kind, bytes, index)?;
        found.push(number)?;
    }
    Ok(found)
}

/// What the word spells, where the next of those with escapes is that at `next`; and the next one behind it.
fn spelled<'t>(text: &'t [u8], word: Word, decoded: &'t [Vec<u8>], next: usize) -> (&'t [u8], usize)
    ensures spelled { (rest : List Word) → map (λ bytes. bytes.items) (drop next decoded.now) ≡ decoded_of text.now (word ∷ rest) → result.0.now ≡ spelled text.now word }
    ensures next { (rest : List Word) → map (λ bytes. bytes.items) (drop next decoded.now) ≡ decoded_of text.now (word ∷ rest)
        → map (λ bytes. bytes.items) (drop result.1 decoded.now) ≡ decoded_of text.now rest }
{
    let bytes = core(word.kind, piece(text, word));
    if !has_escape(bytes) {
        return (bytes, next);
    }
    match decoded.get(next) {
        Some(spelled) => (spelled.as_slice(), next + 1),
        None => (bytes, next),
    }
}

/// The number of a word that spells these bytes and stands at this place.
fn number_of<'t>(
    seen: &mut Seen<'t>,
    kind: Kind,
    bytes: &'t [u8],
    index: usize,
) -> Result<u32, AllocError>
    ensures number { (text : List ℕ) (words rest : List Word) (word : Word) → index ≡ length words → word.kind ≡ kind → bytes.now ≡ spelled text word → Stands text words seen.old
        → IfOk result (λ n. n ≡ name_of text (words ++ word ∷ rest) index word) }
    ensures seen { (text : List ℕ) (words : List Word) (word : Word) → index ≡ length words → word.kind ≡ kind → bytes.now ≡ spelled text word → Stands text words seen.old
        → OnOk result (Stands text (words ++ word ∷ []) seen.new) }
{
    let Ok(own) = u32::try_from(index) else {
        return Err(AllocError);
    };
    if is_sign(kind) {
        return Ok(own);
    }
    match seen.numbers.get(bytes).copied() {
        Some(first) => Ok(first),
        None => {
            seen.numbers.insert(bytes, own)?;
            Ok(own)
        }
    }
}

/// Whether a word of this kind is a sign.
pub fn is_sign(kind: Kind) -> bool
    ensures { result ≡ is_sign kind }
{
    match kind {
        Kind::DimensionX
        | Kind::OpenParen
        | Kind::CloseParen
        | Kind::OpenSquare
        | Kind::CloseSquare
        | Kind::OpenBrace
        | Kind::CloseBrace
        | Kind::Less
        | Kind::Greater
        | Kind::Comma
        | Kind::Colon
        | Kind::Equals
        | Kind::Question
        | Kind::Minus
        | Kind::Arrow
        | Kind::DoubleColon => true,
        _ => false,
    }
}
