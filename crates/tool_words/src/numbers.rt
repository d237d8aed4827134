//! Numbers in values.

ghost use Rattle.std.specs.Prelude.{◌≡◌, IfOk, map};
ghost use Rattle.std.specs.List.{list_all, slice_split};
ghost use Rattle.tool_words.specs.Lists.{all_of};
ghost use Rattle.tool_words.specs.Numbers.{digits_of, integer_of, integers_of, is_comma, is_digit, is_digits, number_in};

use sqlite_items::Items;
use std::alloc::Global;
use tree_model::NoMemory;

/// The number that a text of digits says, where it lies between the bounds.
pub(crate) fn number(text: &str, least: u32, most: u32) -> Option<u32>
    ensures { result ≡ number_in least most text.now }
{
    if !is_digits(text.as_bytes()) {
        return None;
    }
    let number = text.parse::<u32>().ok()?;
    if number < least || most < number {
        return None;
    }
    Some(number)
}

/// The integers that a text says, with a comma between two.
pub(crate) fn integers(alloc: Global, text: &str) -> Result<Option<Items<i128>>, NoMemory>
    ensures { IfOk result (λ r. r ≡ integers_of text.now) }
{
    if text.is_empty() {
        return Ok(Some(Items::new(alloc)));
    }
    let parts = parts(alloc, text)?;
    all_integers(alloc, parts.as_slice())
}

fn parts(alloc: Global, text: &str) -> Result<Vec<&str>, NoMemory>
    ensures { IfOk result (λ v. map (λ s. s.now) v.items ≡ slice_split is_comma text.now) }
{
    text.split(',').collect(alloc)
}

fn all_integers(alloc: Global, parts: &[&str]) -> Result<Option<Items<i128>>, NoMemory>
    ensures { IfOk result (λ r. r ≡ all_of integer_of (map (λ s. s.now) parts.now)) }
{
    let mut integers = Items::new(alloc);
    'each: for part in parts {
        match integer(part) {
            Some(integer) => integers.push(integer)?,
            None => return Ok(None),
        }
    }
    Ok(Some(integers))
}

fn integer(text: &str) -> Option<i128>
    ensures { result ≡ integer_of text.now }
{
    if !is_digits(digits_of(text.as_bytes())) {
        return None;
    }
    text.parse::<i128>().ok()
}

fn digits_of(text: &[u8]) -> &[u8]
    ensures { result.now ≡ digits_of text.now }
{
    match text.split_first() {
        Some((b'-', rest)) => rest,
        _ => text,
    }
}

fn is_digits(text: &[u8]) -> bool
    ensures { result ≡ is_digits text.now }
{
    !text.is_empty() && all_digits(text)
}

fn all_digits(text: &[u8]) -> bool
    ensures { result ≡ list_all is_digit text.now }
{
    text.iter().all(|b| is_digit(*b))
}

fn is_digit(b: u8) -> bool
    ensures { result ≡ is_digit b }
{
    b.is_ascii_digit()
}
