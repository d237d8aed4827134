//! Results that are the inputs of a function type.

ghost use Rattle.std.specs.Prelude.{◌≡◌, OnOk, reverse};
ghost use Rattle.text_types.specs.Marks.{closed_at, first_or_false, is_arrow, marked, marked_at};

use std::alloc::{AllocError, Global};
use text_events::Event;
use text_grammar::Place;

/// Whether it is the place of the arrow of a function type.
fn is_arrow(place: Place) -> bool
    ensures { result ≡ is_arrow place }
{
    match place {
        Place::FunctionArrow => true,
        _ => false,
    }
}

fn marked_at(place: Place, arrow: bool, inner: bool) -> Place
    ensures { result ≡ marked_at place arrow inner }
{
    match place {
        Place::ResultsClose => {
            if arrow {
                Place::FunctionClose
            } else {
                Place::ResultsClose
            }
        }
        Place::ResultsOpen => {
            if inner {
                Place::FunctionOpen
            } else {
                Place::ResultsOpen
            }
        }
        _ => place,
    }
}

/// Whether an arrow stands behind the innermost closing parenthesis.
fn innermost(closed: &[bool]) -> bool
    ensures { result ≡ first_or_false (reverse closed.now) }
{
    match closed.last() {
        Some(inner) => *inner,
        None => false,
    }
}

/// Puts results in parentheses that an arrow follows at the places of a function type.
pub fn mark(alloc: Global, events: &mut [Event]) -> Result<(), AllocError>
    ensures { OnOk result (events.new ≡ marked events.old) }
{
    let mut closed: Vec<bool> = Vec::new(alloc);
    let mut arrow = false;
    let mut index = events.len();
    'each: while index > 0 {
        index -= 1;
        let event = events[index];
        let inner = innermost(&closed);
        events[index] = Event {
            place: marked_at(event.place, arrow, inner),
            name: event.name,
        };
        close(&mut closed, event.place, arrow)?;
        arrow = is_arrow(event.place);
    }
    Ok(())
}

/// Notes a closing parenthesis of results, and takes away the one that an opening one meets.
fn close(closed: &mut Vec<bool>, place: Place, arrow: bool) -> Result<(), AllocError>
    ensures { OnOk result (reverse closed.new.items ≡ closed_at place arrow (reverse closed.old.items)) }
{
    match place {
        Place::ResultsClose => {
            closed.push(arrow)?;
            Ok(())
        }
        Place::ResultsOpen => {
            let _ = closed.pop();
            Ok(())
        }
        _ => Ok(()),
    }
}
