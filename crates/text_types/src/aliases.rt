//! What the aliases of a text stand for, by number.

ghost use Rattle.std.specs.Prelude.{◌≡◌, ◌≤◌, IfOk, OnOk, length};
ghost use Rattle.term_table.specs.Terms.{Grows, term_at};
ghost use Rattle.text_types.specs.Aliases.{after, aliases_of, defines, defines_new, is_nothing, is_start, piece};
ghost use Rattle.text_types.specs.Items.{begins};
ghost use Rattle.text_types.specs.Stack.{AliasesWithin, alias_terms, first_number};

use crate::alias_numbers::AliasNumbers;
use crate::begun::begun_at;
use crate::spelled::Spelled;
use std::alloc::{AllocError, Global};
use term_table::Terms;
use text_events::Event;
use text_grammar::Place;

/// Whether an operation or the definition of an alias begins at the place.
fn is_start(place: Place) -> bool
    ensures { result ≡ is_start place }
{
    match place {
        Place::OpName | Place::ResultName | Place::TypeAliasName | Place::AttrAliasName => true,
        _ => false,
    }
}

/// Whether the definition of an alias begins at the place.
fn defines(place: Place) -> bool
    ensures { result ≡ defines place }
{
    match place {
        Place::TypeAliasName | Place::AttrAliasName => true,
        _ => false,
    }
}

/// The events up to the next operation or definition.
fn piece(events: &[Event]) -> &[Event]
    ensures { result.now ≡ piece events.now }
{
    for (index, event) in events.iter().enumerate() {
        if is_start(event.place) {
            return &events[..index];
        }
    }
    events
}

/// The first number, 0 for none.
fn first(numbers: &[u32]) -> u32
    ensures { result ≡ first_number numbers.now }
{
    match numbers.first() {
        Some(number) => *number,
        None => 0,
    }
}

/// The number of the type or attribute that begins at the first event, 0 where none does.
fn first_at<S: Spelled>(
    alloc: Global,
    words: &S,
    aliases: &AliasNumbers,
    terms: &mut Terms,
    events: &[Event],
) -> Result<u32, AllocError>
    requires { AliasesWithin (length terms.old.nodes.keys) aliases.now }
    ensures grows { Grows terms.old.nodes.keys terms.new.nodes.keys }
    ensures within { IfOk result (λ number. number ≤ length terms.new.nodes.keys) }
    ensures begins { IfOk result (λ number. term_at terms.new.nodes.keys number ≡ begins (S.spelling words.now) (alias_terms terms.old.nodes.keys aliases.now) events.now) }
{
    let numbers = begun_at(alloc, words, aliases, terms, events)?;
    Ok(first(&numbers))
}

/// Whether the number stands for nothing.
fn is_nothing(terms: &Terms, number: u32) -> bool
    requires { number ≤ length terms.now.nodes.keys }
    ensures { result ≡ is_nothing (term_at terms.now.nodes.keys number) }
{
    terms.get(number).is_none()
}

/// Whether the event defines an alias that stands for nothing so far.
fn defines_new(aliases: &AliasNumbers, terms: &Terms, event: Event) -> bool
    requires { AliasesWithin (length terms.now.nodes.keys) aliases.now }
    ensures { result ≡ defines_new (alias_terms terms.now.nodes.keys aliases.now) event }
{
    defines(event.place) && is_nothing(terms, aliases.of(event.name))
}

/// Binds the alias that the event defines, where these follow.
fn define<S: Spelled>(
    alloc: Global,
    words: &S,
    aliases: &mut AliasNumbers,
    terms: &mut Terms,
    event: Event,
    behind: &[Event],
) -> Result<(), AllocError>
    requires { AliasesWithin (length terms.old.nodes.keys) aliases.old }
    ensures grows { Grows terms.old.nodes.keys terms.new.nodes.keys }
    ensures within { OnOk result (AliasesWithin (length terms.new.nodes.keys) aliases.new) }
    ensures aliases { OnOk result (alias_terms terms.new.nodes.keys aliases.new ≡ after (S.spelling words.now) (alias_terms terms.old.nodes.keys aliases.old) event behind.now) }
{
    if !defines_new(aliases, terms, event) {
        return Ok(());
    }
    let value = piece(behind);
    let number = first_at(alloc, words, aliases, terms, value)?;
    aliases.bind(event.name, number)
}

/// The numbers of all aliases of a text.
pub fn aliases_at<S: Spelled>(
    alloc: Global,
    words: &S,
    terms: &mut Terms,
    events: &[Event],
) -> Result<AliasNumbers, AllocError>
    ensures grows { Grows terms.old.nodes.keys terms.new.nodes.keys }
    ensures within { IfOk result (AliasesWithin (length terms.new.nodes.keys)) }
    ensures aliases { IfOk result (λ aliases. alias_terms terms.new.nodes.keys aliases ≡ aliases_of (S.spelling words.now) events.now) }
{
    let mut aliases = AliasNumbers::new(alloc);
    'each: for (index, event) in events.iter().enumerate() {
        define(
            alloc,
            words,
            &mut aliases,
            terms,
            *event,
            &events[index + 1..],
        )?;
    }
    Ok(aliases)
}
