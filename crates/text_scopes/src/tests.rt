//! The calls that may want memory, on their happy paths.

use crate::{Class, Names, first_redefined, resolve};
use std::alloc::Global;
use std::process::Abort;
use std::test::Fail;
use text_events::Event;
use text_grammar::Place;

fn event(place: Place, name: u32) -> Event {
    Event { place, name }
}

/// A function, with two definitions of `%5` and a use of it between them.
fn function(alloc: Global) -> Result<Vec<Event>, std::alloc::AllocError> {
    Vec::from_slice(
        alloc,
        &[
            event(Place::OpName, 1),
            event(Place::RegionOpen, 2),
            event(Place::ResultName, 5),
            event(Place::OpName, 3),
            event(Place::SignatureColon, 4),
            event(Place::OpName, 3),
            event(Place::UseName, 5),
            event(Place::UseName, 6),
            event(Place::SignatureColon, 4),
            event(Place::ResultName, 5),
            event(Place::RegionClose, 7),
        ],
    )
}

#[test]
fn a_name_that_is_defined_twice(rt: HostRuntime) -> Result<(), Fail> {
    let events = function(rt.alloc())?;
    let classes = [Class::Module, Class::Function];
    assert!(&rt; events.len() < 100);
    let found = first_redefined(rt.alloc(), Names::Values, &classes, &events)?;
    assert_eq!(&rt; found, Some(9));
    Ok(())
}

#[test]
fn what_uses_stand_for(rt: HostRuntime) -> Result<(), Fail> {
    let events = function(rt.alloc())?;
    let classes = [Class::Module, Class::Function];
    assert!(&rt; events.len() < 100);
    let uses = resolve(rt.alloc(), Names::Values, &classes, &events)?;
    assert_eq!(&rt; uses.definitions.as_slice(), [Some(2), None].as_slice());
    assert_eq!(&rt; uses.undefined, Some(7));
    Ok(())
}
