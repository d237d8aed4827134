//! Words as texts.

ghost use Rattle.std.specs.Prelude.{◌≡◌, IfOk, map, option_map};
ghost use Rattle.tool_words.specs.Lists.{all_of};
ghost use Rattle.tool_words.specs.Words.{is_short, word_or_none};

use std::alloc::Global;
use std::str;
use tree_model::NoMemory;

/// The words as texts; none where one is no text, or begins with one hyphen alone. No word of the command set does, and `clap` would take the word
/// `-` as a value.
pub(crate) fn texts<'a>(
    alloc: Global,
    words: &'a [Vec<u8>],
) -> Result<Option<Vec<&'a str>>, NoMemory>
    ensures { IfOk result (λ r. option_map (λ v. map (λ s. s.now) v.items) r ≡ all_of word_or_none (map (λ w. w.items) words.now)) }
{
    let mut all = Vec::new(alloc);
    'each: for word in words {
        match text(word.as_slice()) {
            Some(text) => all.push(text)?,
            None => return Ok(None),
        }
    }
    Ok(Some(all))
}

fn text(word: &[u8]) -> Option<&str>
    ensures { option_map (λ s. s.now) result ≡ word_or_none word.now }
{
    if is_short(word) {
        return None;
    }
    str::from_utf8(word).ok()
}

/// Whether a word begins with a hyphen, and not with two.
fn is_short(word: &[u8]) -> bool
    ensures { result ≡ is_short word.now }
{
    word.starts_with(b"-") && !word.starts_with(b"--")
}
