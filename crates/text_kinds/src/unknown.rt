//! Operations that are not known.

ghost use Rattle.std.specs.Prelude.{◌≡◌};
ghost use Rattle.text_scopes.specs.Bodies.{class_in};
ghost use Rattle.text_kinds.specs.Classes.{first_unknown, stands_unknown};

use crate::classes::is_unknown;
use text_events::Event;
use text_grammar::Place;
use text_scopes::{Class, class_of};

/// The first operation that is not known, where such are not allowed.
pub fn first_unknown(classes: &[Class], allowed: bool, events: &[Event]) -> Option<usize>
    ensures { result ≡ first_unknown (class_in classes.now) allowed events.now }
{
    for (index, event) in events.iter().enumerate() {
        if stands_unknown(classes, allowed, *event) {
            return Some(index);
        }
    }
    None
}

fn stands_unknown(classes: &[Class], allowed: bool, event: Event) -> bool
    ensures { result ≡ stands_unknown (class_in classes.now) allowed event }
{
    match event.place {
        Place::OpName => {
            if allowed {
                false
            } else {
                is_unknown(class_of(classes, event.name))
            }
        }
        _ => false,
    }
}
