//! The numbers of values and labels at their uses.

ghost use Rattle.std.specs.Prelude.{◌≡◌, ◌≤◌, ◌<◌, ◌+◌, ◌^◌, ℕ, IfOk, List, Option, drop, length};
ghost use Rattle.event_trees.specs.Numbers.{first_of, index_at, left_at, meant_at, meant_from, number_at};
ghost use Rattle.event_trees.specs.Wording.{wording_of};
ghost use Rattle.module_trees.specs.Left.{left_from};

use std::alloc::{AllocError, Global};
use text_events::{Event, Source};
use text_grammar::Place;

/// The index behind a use, 0 where none is written.
fn index_at(source: &Source<'_>, events: &[Event], index: usize) -> Result<u32, AllocError>
    ensures { IfOk result (λ n. n ≡ index_at (wording_of source.now.text.now source.now.words.now) (drop index events.now)) }
{
    let Some(event) = events.get(index) else {
        return Ok(0);
    };
    match event.place {
        Place::UseNumber => match u32::try_from(source.index(event.name)) {
            Ok(index) => Ok(index),
            Err(_) => Err(AllocError),
        },
        _ => Ok(0),
    }
}

/// The number at the definition of a use.
fn number_at(numbers: &[u32], definition: Option<u32>) -> u32
    ensures { result ≡ number_at numbers.now definition }
{
    match definition {
        Some(place) => match numbers.get(place as usize) {
            Some(number) => *number,
            None => 0,
        },
        None => 0,
    }
}

/// The definition of the next use.
fn next_of(definitions: &[Option<u32>], next: usize) -> Option<u32>
    ensures { result ≡ first_of (drop next definitions.now) }
{
    match definitions.get(next) {
        Some(definition) => *definition,
        None => None,
    }
}

/// How many uses of values and of labels are behind.
#[derive(Clone, Copy, Drop)]
pub struct Next {
    pub values: usize,
    pub labels: usize,
}

/// The definitions of all uses, of values and of labels.
#[derive(Clone, Copy, Drop)]
pub struct Definitions<'u> {
    pub values: &'u [Option<u32>],
    pub labels: &'u [Option<u32>],
}

fn passed(place: Place, next: Next) -> Next
    requires values { next.values + 1 < 2 ^ 64 }
    requires labels { next.labels + 1 < 2 ^ 64 }
    ensures is { (values labels : List (Option ℕ)) → left_from values labels result ≡ left_at place (left_from values labels next) }
    ensures values { result.values ≤ next.values + 1 }
    ensures labels { result.labels ≤ next.labels + 1 }
{
    match place {
        Place::UseName => Next {
            values: next.values + 1,
            labels: next.labels,
        },
        Place::SuccessorName => Next {
            values: next.values,
            labels: next.labels + 1,
        },
        _ => next,
    }
}

/// A sum of 32 bits. No text has so many values that there is none.
fn sum(number: u32, index: u32) -> Result<u32, AllocError>
    ensures { IfOk result (λ n. n ≡ number + index) }
{
    match number.checked_add(index) {
        Some(sum) => Ok(sum),
        None => Err(AllocError),
    }
}

/// The number at an event: a use has the number of its definition, with its index.
fn meant(
    numbers: &[u32],
    definitions: Definitions<'_>,
    next: Next,
    place: Place,
    index: u32,
    own: u32,
) -> Result<u32, AllocError>
    ensures { IfOk result (λ n. n ≡ meant_at numbers.now (left_from definitions.entry.values.now definitions.entry.labels.now next) place index own) }
{
    match place {
        Place::UseName => {
            let definition = next_of(definitions.values, next.values);
            sum(number_at(numbers, definition), index)
        }
        Place::SuccessorName => {
            let definition = next_of(definitions.labels, next.labels);
            Ok(number_at(numbers, definition))
        }
        _ => Ok(own),
    }
}

/// The number at each event, where these are the numbers at definitions.
pub fn meant_at(
    alloc: Global,
    source: &Source<'_>,
    events: &[Event],
    numbers: &[u32],
    definitions: Definitions<'_>,
) -> Result<Vec<u32>, AllocError>
    requires { length events.now ≡ length numbers.now }
    ensures { IfOk result (λ v. v.items ≡ meant_from (wording_of source.now.text.now source.now.words.now) numbers.now (record { values = definitions.entry.values.now; labels = definitions.entry.labels.now }) events.now numbers.now) }
{
    let mut all = Vec::with_capacity(alloc, events.len())?;
    let mut next = Next {
        values: 0,
        labels: 0,
    };
    'each: for index in 0..events.len() {
        let place = events[index].place;
        let behind = index_at(source, events, index + 1)?;
        let number = meant(numbers, definitions, next, place, behind, numbers[index])?;
        all.push(number)?;
        next = passed(place, next);
    }
    Ok(all)
}
