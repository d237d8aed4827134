//! Events that are given their places back.

ghost use Rattle.std.specs.Prelude.{◌≡◌, slice_get};
ghost use Rattle.text_refusals.specs.Placed.{at_place, placed};

use text_events::Event;
use text_grammar::Place;

/// Puts each event at the place that stands for it.
pub fn restore(events: &mut [Event], places: &[Place])
    ensures { events.new ≡ placed events.old places.now }
{
    let mut index = events.len();
    'each: while index > 0 {
        index -= 1;
        let place = place_from(places, index);
        events[index] = at_place(events[index], place);
    }
}

fn place_from(places: &[Place], index: usize) -> Option<Place>
    ensures { result ≡ slice_get places.now index }
{
    places.get(index).copied()
}

fn at_place(event: Event, place: Option<Place>) -> Event
    ensures { result ≡ at_place event place }
{
    match place {
        Some(place) => Event {
            place,
            name: event.name,
        },
        None => event,
    }
}
