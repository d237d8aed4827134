//! Numbers out of their ranges.

ghost use Rattle.std.specs.Prelude.{◌≡◌, ◌+◌, ◌<◌, ◌≤◌, ◌^◌, ℕ, IfOk, Some, drop, length};
ghost use Rattle.term_table.specs.Terms.{term_at};
ghost use Rattle.text_types.specs.Stack.{AliasesWithin, alias_terms, number_of};
ghost use Rattle.type_kinds.specs.Ranges.{first_out, form_width, is_colon, is_count, is_long_size, is_minus, listed_at, narrow, next_width, number_width, out_at, term_width, unfits, unfits_some, width_at, written_width};

use term_table::{Form, Terms};
use text_events::Event;
use text_grammar::Place;
use text_types::{AliasNumbers, Spelled};

fn narrow(width: u64) -> u32
    ensures { result ≡ narrow width }
{
    width.min(64) as u32
}

fn written_width(width: Option<u32>) -> u32
    ensures is { result ≡ written_width width }
    ensures narrow { result ≤ 64 }
{
    match width {
        Some(width) => narrow(width as u64),
        None => 64,
    }
}

fn form_width(form: Form, value: u64) -> u32
    ensures is { result ≡ form_width form value }
    ensures narrow { result ≤ 64 }
{
    match form {
        Form::Int => narrow(value),
        _ => 64,
    }
}

/// The width of the integer type of a number of the table.
fn term_width(terms: &Terms, number: u32) -> u32
    requires { number ≤ length terms.now.nodes.keys }
    ensures is { result ≡ term_width (term_at terms.now.nodes.keys number) }
    ensures narrow { result ≤ 64 }
{
    match terms.get(number) {
        Some(node) => form_width(node.form, node.value),
        None => 64,
    }
}

/// Whether a number is out of the range of a width.
fn unfits(minus: bool, width: u32, number: u128) -> bool
    requires { width ≤ 64 }
    ensures { result ≡ unfits minus width number }
{
    if minus {
        (1u128 << width.saturating_sub(1)) < number
    } else {
        (1u128 << width) <= number
    }
}

fn unfits_some(width: Option<u32>, minus: bool, number: u128) -> bool
    requires { (w : ℕ) → width ≡ Some w → w ≤ 64 }
    ensures { result ≡ unfits_some width minus number }
{
    match width {
        Some(width) => unfits(minus, width, number),
        None => false,
    }
}

fn is_long_size(size: Option<u128>) -> bool
    ensures { result ≡ is_long_size size }
{
    match size {
        Some(size) => size >= 9223372036854775808,
        None => false,
    }
}

/// The width of the type at an event, where one is read.
fn width_at<S: Spelled>(
    words: &S,
    aliases: &AliasNumbers,
    terms: &Terms,
    event: Event,
) -> Option<u32>
    requires { AliasesWithin (length terms.now.nodes.keys) aliases.now }
    ensures is { result ≡ width_at (S.spelling words.now) (alias_terms terms.now.nodes.keys aliases.now) event.place event.name }
    ensures narrow { (w : ℕ) → result ≡ Some w → w ≤ 64 }
{
    match event.place {
        Place::ElementWord => Some(written_width(words.width(event.name))),
        Place::ElementAlias => Some(term_width(terms, aliases.of(event.name))),
        _ => None,
    }
}

fn is_colon(place: Place) -> bool
    ensures { result ≡ is_colon place }
{
    match place {
        Place::NumberColon => true,
        _ => false,
    }
}

fn is_minus(place: Place) -> bool
    ensures { result ≡ is_minus place }
{
    match place {
        Place::IntegerMinus | Place::ListedMinus => true,
        _ => false,
    }
}

/// The width of the type at the first event, where one is read.
fn next_width<S: Spelled>(
    words: &S,
    aliases: &AliasNumbers,
    terms: &Terms,
    events: &[Event],
) -> Option<u32>
    requires { AliasesWithin (length terms.now.nodes.keys) aliases.now }
    ensures is { result ≡ next_width (S.spelling words.now) (alias_terms terms.now.nodes.keys aliases.now) events.now }
    ensures narrow { (w : ℕ) → result ≡ Some w → w ≤ 64 }
{
    match events {
        [event, ..] => width_at(words, aliases, terms, *event),
        [] => None,
    }
}

/// The width for a number that these events follow, where it is decided.
fn number_width<S: Spelled>(
    words: &S,
    aliases: &AliasNumbers,
    terms: &Terms,
    events: &[Event],
) -> Option<u32>
    requires { AliasesWithin (length terms.now.nodes.keys) aliases.now }
    ensures is { result ≡ number_width (S.spelling words.now) (alias_terms terms.now.nodes.keys aliases.now) events.now }
    ensures narrow { (w : ℕ) → result ≡ Some w → w ≤ 64 }
{
    match events {
        [event, rest @ ..] => {
            if is_colon(event.place) {
                next_width(words, aliases, terms, rest)
            } else {
                Some(64)
            }
        }
        [] => Some(64),
    }
}

fn is_count(number: u128) -> bool
    ensures { result ≡ is_count number }
{
    1 <= number && number <= 4096
}

/// Whether the number of the event is out of its range, where the width of its type, of the array and a minus before it are these.
fn is_out<S: Spelled>(words: &S, event: Event, typed: Option<u32>, width: u32, minus: bool) -> bool
    requires typed { (w : ℕ) → typed ≡ Some w → w ≤ 64 }
    requires width { width ≤ 64 }
    ensures { result ≡ out_at (S.spelling words.now) (record { width = width; minus = minus }) event.place event.name typed }
{
    match event.place {
        Place::IntegerNumber => unfits_some(typed, minus, words.number(event.name)),
        Place::ListedNumber => unfits(minus, width, words.number(event.name)),
        Place::DimensionSize => is_long_size(words.size(event.name)),
        Place::ArrayNumber => words.number(event.name) >= 4294967296,
        Place::ResultNumber => !is_count(words.number(event.name)),
        _ => false,
    }
}

/// The width of the numbers of an array behind an event.
fn listed_width<S: Spelled>(words: &S, event: Event, width: u32) -> u32
    requires { width ≤ 64 }
    ensures is { result ≡ listed_at (S.spelling words.now) event.place event.name width }
    ensures narrow { result ≤ 64 }
{
    match event.place {
        Place::NumbersWidth => written_width(words.width(event.name)),
        _ => width,
    }
}

/// The first number out of its range.
pub fn first_out_of_range<S: Spelled>(
    words: &S,
    aliases: &AliasNumbers,
    terms: &Terms,
    events: &[Event],
) -> Option<usize>
    requires { AliasesWithin (length terms.now.nodes.keys) aliases.now }
    ensures { result ≡ first_out (S.spelling words.now) (alias_terms terms.now.nodes.keys aliases.now) events.now }
{
    let mut width = 64;
    let mut minus = false;
    'each: for (index, event) in events.iter().enumerate() {
        let typed = number_width(words, aliases, terms, &events[index + 1..]);
        if is_out(words, *event, typed, width, minus) {
            return Some(index);
        }
        width = listed_width(words, *event, width);
        minus = is_minus(event.place);
    }
    None
}
