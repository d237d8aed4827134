//! What the words in terms spell.

ghost use Rattle.std.specs.Prelude.{◌≡◌, ◌≤◌, Bool, IfOk, codes, drop, length, if◌then◌else◌};
ghost use Rattle.std.specs.Str.{bytes_eq};
ghost use Rattle.event_trees.specs.Attrs.{numbers_of, words_of};
ghost use Rattle.event_trees.specs.Wording.{wording_of};
ghost use Rattle.term_table.specs.Terms.{term_at};

use crate::integers::{negative, number_below, signed};
use crate::lists::item;
use sqlite_items::Items;
use std::alloc::{AllocError, Global};
use term_table::{Form, Terms};
use text_events::Source;
use tree_model::{Bytes, Name, NameList, NumberList};

/// What the word of a name spells.
pub fn bytes_at(alloc: Global, source: &Source<'_>, name: u64) -> Result<Bytes, AllocError>
    ensures { IfOk result (λ b. b ≡ (wording_of source.now.text.now source.now.words.now).spelled name) }
{
    let name = number_below(name)?;
    Ok(Bytes::from_vec(source.spelled(alloc, name)?))
}

/// The same as a name of a tree.
pub fn name_at(alloc: Global, source: &Source<'_>, name: u64) -> Result<Name, AllocError>
    ensures { IfOk result (λ n. n ≡ (wording_of source.now.text.now source.now.words.now).spelled name) }
{
    let bytes = bytes_at(alloc, source, name)?;
    Name::from_slice(alloc, bytes.as_slice())
}

/// What stands behind the first byte.
fn behind_first(bytes: &[u8]) -> &[u8]
    ensures { result.now ≡ drop 1 bytes.now }
{
    match bytes {
        [_, rest @ ..] => rest,
        [] => bytes,
    }
}

/// The name of a dialect attribute, without its `#`.
pub fn dialect_name(alloc: Global, source: &Source<'_>, name: u64) -> Result<Name, AllocError>
    ensures { IfOk result (λ n. n ≡ drop 1 ((wording_of source.now.text.now source.now.words.now).spelled name)) }
{
    let bytes = bytes_at(alloc, source, name)?;
    Name::from_slice(alloc, behind_first(bytes.as_slice()))
}

/// Whether the word spells `true`.
pub fn is_true(alloc: Global, source: &Source<'_>, name: u64) -> Result<bool, AllocError>
    ensures { IfOk result (λ b. b ≡ bytes_eq ((wording_of source.now.text.now source.now.words.now).spelled name) (codes "true")) }
{
    let bytes = bytes_at(alloc, source, name)?;
    Ok(is_the_same(bytes.as_slice(), b"true"))
}

/// Whether two texts have the same bytes.
fn is_the_same(one: &[u8], other: &[u8]) -> bool
    ensures { result ≡ bytes_eq one.now other.now }
{
    one == other
}

/// The value of a number.
pub fn number_at(source: &Source<'_>, name: u64) -> Result<u128, AllocError>
    ensures { IfOk result (λ n. n ≡ (wording_of source.now.text.now source.now.words.now).number name) }
{
    let name = number_below(name)?;
    Ok(source.number(name))
}

/// The words of a dialect attribute.
pub fn words_at(
    alloc: Global,
    source: &Source<'_>,
    terms: &Terms,
    number: u32,
) -> Result<NameList, AllocError>
    requires { number ≤ length terms.now.nodes.keys }
    ensures { IfOk result (λ ws. ws ≡ words_of (wording_of source.now.text.now source.now.words.now) (term_at terms.now.nodes.keys number)) }
{
    let mut words = Items::new(alloc);
    let mut rest = number;
    'each: while let Some(first) = item(terms, rest, Form::DialectWord) {
        words.push(name_at(alloc, source, first.value)?)?;
        rest = first.left;
    }
    Ok(words)
}

/// The numbers of an array whose numbers have so many bits.
pub fn numbers_at(
    alloc: Global,
    source: &Source<'_>,
    terms: &Terms,
    bits: u32,
    number: u32,
) -> Result<NumberList, AllocError>
    requires { number ≤ length terms.now.nodes.keys }
    ensures { IfOk result (λ ns. ns ≡ numbers_of (wording_of source.now.text.now source.now.words.now) bits (term_at terms.now.nodes.keys number)) }
{
    let mut numbers = Items::new(alloc);
    let mut rest = number;
    'each: while let Some(first) = terms.get(rest) {
        match first.form {
            Form::Listed => {
                numbers.push(signed(bits, number_at(source, first.value)?)?)?;
                rest = first.left;
            }
            Form::ListedMinus => {
                let Some(listed) = item(terms, first.left, Form::Listed) else {
                    return Ok(numbers);
                };
                numbers.push(negative(number_at(source, listed.value)?)?)?;
                rest = listed.left;
            }
            _ => return Ok(numbers),
        }
    }
    Ok(numbers)
}
