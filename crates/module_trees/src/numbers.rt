//! The numbers of values and labels at their definitions.

ghost use Rattle.std.specs.Prelude.{◌≡◌, ◌≤◌, ◌<◌, ◌+◌, ◌^◌, IfOk, drop, length};
ghost use Rattle.text_types.specs.Items.{place_next};
ghost use Rattle.text_grammar.specs.declared.places.Place.TheVariants.{ResultNumber};
ghost use Rattle.event_trees.specs.Numbers.{begins_operation, counted, counted_at, defined_at, is_border, no_counts, numbers_from, or_anew};
ghost use Rattle.event_trees.specs.Wording.{wording_of};
ghost use Rattle.text_scopes.specs.Bodies.{class_in};
ghost use Rattle.text_scopes.specs.Tables.{value_step};

use event_trees::Counts;
use std::alloc::{AllocError, Global};
use text_events::{Event, Source};
use text_grammar::Place;
use text_scopes::{Body, Class, behind, opens_body};

/// A sum of 32 bits. No text has so many values that there is none.
fn sum(count: u32, more: u32) -> Result<u32, AllocError>
    ensures { IfOk result (λ n. n ≡ count + more) }
{
    match count.checked_add(more) {
        Some(sum) => Ok(sum),
        None => Err(AllocError),
    }
}

/// Whether the border of a function is here.
fn is_border(body: Body, place: Place) -> bool
    ensures { result ≡ is_border (value_step body place) }
{
    match place {
        Place::RegionOpen => opens_body(body),
        Place::RegionClose | Place::SignatureColon | Place::BlockColon => body.within == 0,
        _ => false,
    }
}

fn begins_operation(next: Option<Place>) -> bool
    ensures { result ≡ begins_operation next }
{
    match next {
        Some(Place::OpName) | Some(Place::ResultName) => true,
        _ => false,
    }
}

/// The number of what is defined here.
fn defined_at(counts: Counts, place: Place) -> Result<u32, AllocError>
    ensures { IfOk result (λ n. n ≡ defined_at counts place) }
{
    match place {
        Place::ResultName => sum(counts.values, counts.named),
        Place::OpName | Place::ArgName => Ok(counts.values),
        Place::BlockLabel | Place::RegionOpen => Ok(counts.labels),
        _ => Ok(0),
    }
}

/// A result name that stands for so many counts as many, less the one that is counted.
fn named(source: &Source<'_>, counts: Counts, name: u32) -> Result<Counts, AllocError>
    ensures { IfOk result (λ c. c ≡ counted_at (wording_of source.now.text.now source.now.words.now) counts ResultNumber name 0 None) }
{
    let Ok(number) = u32::try_from(source.number(name)) else {
        return Err(AllocError);
    };
    let named = sum(counts.named, number)?;
    Ok(Counts {
        named: named.saturating_sub(1),
        ..counts
    })
}

/// What is counted behind a word.
fn counted_at(
    source: &Source<'_>,
    counts: Counts,
    place: Place,
    name: u32,
    results: u32,
    next: Option<Place>,
) -> Result<Counts, AllocError>
    ensures { IfOk result (λ c. c ≡ counted_at (wording_of source.now.text.now source.now.words.now) counts place name results next) }
{
    match place {
        Place::ResultName => Ok(Counts {
            named: sum(counts.named, 1)?,
            ..counts
        }),
        Place::ResultNumber => named(source, counts, name),
        Place::OpName => Ok(Counts {
            values: sum(counts.values, results)?,
            named: 0,
            ..counts
        }),
        Place::ArgName => Ok(Counts {
            values: sum(counts.values, 1)?,
            ..counts
        }),
        Place::BlockLabel => Ok(Counts {
            labels: sum(counts.labels, 1)?,
            ..counts
        }),
        Place::RegionOpen => if begins_operation(next) {
            Ok(Counts {
                labels: sum(counts.labels, 1)?,
                ..counts
            })
        } else {
            Ok(counts)
        },
        _ => Ok(counts),
    }
}

fn or_anew(anew: bool, counts: Counts) -> Counts
    ensures { result ≡ or_anew anew counts }
{
    if anew {
        Counts {
            body: counts.body,
            values: 0,
            named: 0,
            labels: 0,
        }
    } else {
        counts
    }
}

/// What is counted behind an event.
fn counted(
    source: &Source<'_>,
    classes: &[Class],
    counts: Counts,
    event: Event,
    results: u32,
    next: Option<Place>,
) -> Result<Counts, AllocError>
    requires { counts.body.within + 1 < 2 ^ 64 }
    ensures is { IfOk result (λ c. c ≡ counted (wording_of source.now.text.now source.now.words.now) (class_in classes.now) counts event results next) }
    ensures bound { IfOk result (λ c. c.body.within ≤ counts.body.within + 1) }
{
    let anew = is_border(counts.body, event.place);
    let more = counted_at(source, counts, event.place, event.name, results, next)?;
    let body = behind(classes, counts.body, event);
    Ok(Counts {
        body,
        ..or_anew(anew, more)
    })
}

/// The place of the event at an index.
fn place_at(events: &[Event], index: usize) -> Option<Place>
    ensures { result ≡ place_next (drop index events.now) }
{
    match events.get(index) {
        Some(event) => Some(event.place),
        None => None,
    }
}

/// The number at each definition of values and labels, where these are the counts of results.
pub fn numbers_at(
    alloc: Global,
    source: &Source<'_>,
    classes: &[Class],
    events: &[Event],
    results: &[u32],
) -> Result<Vec<u32>, AllocError>
    requires { length events.now ≡ length results.now }
    ensures { IfOk result (λ v. v.items ≡ numbers_from (wording_of source.now.text.now source.now.words.now) (class_in classes.now) no_counts events.now results.now) }
{
    let mut numbers = Vec::with_capacity(alloc, events.len())?;
    let mut counts = Counts {
        body: Body {
            within: 0,
            at_module: false,
        },
        values: 0,
        named: 0,
        labels: 0,
    };
    'each: for index in 0..events.len() {
        let event = events[index];
        numbers.push(defined_at(counts, event.place)?)?;
        let next = place_at(events, index + 1);
        counts = counted(source, classes, counts, event, results[index], next)?;
    }
    Ok(numbers)
}
