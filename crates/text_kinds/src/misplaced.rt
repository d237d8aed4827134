//! Operations at the wrong place.

ghost use Rattle.std.specs.Prelude.{◌≡◌, ◌+◌, ◌<◌, ◌≤◌, ◌^◌, length};
ghost use Rattle.text_scopes.specs.Bodies.{class_in};
ghost use Rattle.text_kinds.specs.Shapes.{begins, first_misplaced, may_stand, misplaces, spot_behind};

use text_events::Event;
use text_grammar::Place;
use text_scopes::{Body, Class, behind, class_of};

/// Where an operation stands.
#[derive(Clone, Copy, Drop)]
pub struct Spot {
    pub body: Body,
    /// Whether an operation stands before it.
    pub begun: bool,
}

/// The first operation at the wrong place.
pub fn first_misplaced(classes: &[Class], events: &[Event]) -> Option<usize>
    requires { length events.now < 2 ^ 32 }
    ensures { result ≡ first_misplaced (class_in classes.now) events.now }
{
    let mut spot = Spot {
        body: Body {
            within: 0,
            at_module: false,
        },
        begun: false,
    };
    for (index, event) in events.iter().enumerate() {
        if misplaces(classes, spot, *event) {
            return Some(index);
        }
        spot = spot_behind(classes, spot, *event);
    }
    None
}

fn may_stand(spot: Spot, class: Class) -> bool
    ensures { result ≡ may_stand spot class }
{
    match class {
        Class::Function => spot.body.within == 0,
        Class::Module => {
            if spot.body.within == 0 {
                !spot.begun
            } else {
                false
            }
        }
        _ => spot.body.within != 0,
    }
}

fn misplaces(classes: &[Class], spot: Spot, event: Event) -> bool
    ensures { result ≡ misplaces (class_in classes.now) spot event }
{
    match event.place {
        Place::OpName => !may_stand(spot, class_of(classes, event.name)),
        _ => false,
    }
}

fn begins(begun: bool, place: Place) -> bool
    ensures { result ≡ begins begun place }
{
    match place {
        Place::OpName => true,
        _ => begun,
    }
}

fn spot_behind(classes: &[Class], spot: Spot, event: Event) -> Spot
    requires { spot.body.within + 1 < 2 ^ 64 }
    ensures is { result ≡ spot_behind (class_in classes.now) spot event }
    ensures bound { result.body.within ≤ spot.body.within + 1 }
{
    Spot {
        body: behind(classes, spot.body, event),
        begun: begins(spot.begun, event.place),
    }
}
