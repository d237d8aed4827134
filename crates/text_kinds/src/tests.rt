//! The call that may want memory, on its happy path.

use crate::{Found, Kind, least, plain_kinds};
use std::process::Abort;
use std::test::Fail;
use text_events::Event;
use text_grammar::Place;
use text_scopes::Class;

fn event(place: Place, name: u32) -> Event {
    Event { place, name }
}

fn place_of(found: Option<Found>) -> Option<usize> {
    match found {
        Some(found) => Some(found.place),
        None => None,
    }
}

fn is_redefined(found: Option<Found>) -> bool {
    match found {
        Some(found) => match found.kind {
            Kind::RedefinedValue => true,
            _ => false,
        },
        None => false,
    }
}

#[test]
fn a_value_that_is_defined_twice_in_a_function(rt: HostRuntime) -> Result<(), Fail> {
    let events = [
        event(Place::OpName, 1),
        event(Place::RegionOpen, 2),
        event(Place::ResultName, 5),
        event(Place::OpName, 3),
        event(Place::SignatureColon, 4),
        event(Place::ResultName, 5),
        event(Place::OpName, 6),
    ];
    let classes = [Class::Module, Class::Function];
    let found = plain_kinds(rt.alloc(), &classes, true, &events)?;
    let first = least(&found, &[]);
    assert_eq!(&rt; place_of(first), Some(5));
    assert!(&rt; is_redefined(first));
    Ok(())
}
