//! The events of a text, up to where looking ends.

ghost use Rattle.std.specs.Prelude.{◌≡◌, IfOk};
ghost use Rattle.text_events.specs.Source.{event_at, events_of, is_own};

use crate::event::Event;
use std::alloc::{AllocError, Global};
use text_grammar::Place;

/// Each place with the name of its word. A text of 2^32 words is want of memory.
pub fn events(alloc: Global, places: &[Place], names: &[u32]) -> Result<Vec<Event>, AllocError>
    ensures { IfOk result (λ v. v.items ≡ events_of places.now names.now) }
{
    let mut found = Vec::with_capacity(alloc, places.len())?;
    'each: for index in 0..places.len() {
        if names.len() <= index {
            return Ok(found);
        }
        let Ok(own) = u32::try_from(index) else {
            return Err(AllocError);
        };
        found.push(event_at(places[index], own, names[index]))?;
    }
    Ok(found)
}

fn event_at(place: Place, own: u32, name: u32) -> Event
    ensures { result ≡ event_at place own name }
{
    Event {
        place,
        name: if is_own(place) { own } else { name },
    }
}

/// Whether the word at the place is read by itself.
fn is_own(place: Place) -> bool
    ensures { result ≡ is_own place }
{
    match place {
        Place::OpName
        | Place::ResultNumber
        | Place::UseNumber
        | Place::IntegerWord
        | Place::ElementWord
        | Place::NumbersWidth
        | Place::LlvmPlain
        | Place::InnerPlain
        | Place::ArrayNumber
        | Place::DimensionSize
        | Place::IntegerNumber
        | Place::ListedNumber => true,
        _ => false,
    }
}
