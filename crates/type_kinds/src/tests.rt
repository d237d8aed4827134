//! The calls over small lists of events, on the happy path.

ghost use Rattle.type_kinds.specs.Examples.{words};

use crate::{first_attr_too_deep, first_part_too_many, first_type_count, first_type_too_deep};
use std::alloc::Global;
use std::test::Fail;
use term_table::Terms;
use text_events::Event;
use text_grammar::Place;
use text_types::{AliasNumbers, Spelled, aliases_at, begun_at, mark};

/// Words whose names are their own numbers.
#[derive(Drop)]
struct Own;

impl Spelled for Own {
    ghost spelling = { λ _. words };

    fn width(&self, name: u32) -> Option<u32> {
        if name == 0 { None } else { Some(name) }
    }

    fn size(&self, name: u32) -> Option<u128> {
        if name == 0 { None } else { Some(name as u128) }
    }

    fn number(&self, name: u32) -> u128 {
        name as u128
    }

    fn is_void(&self, _name: u32) -> bool {
        false
    }
}

fn at(place: Place, name: u32) -> Event {
    Event { place, name }
}

#[test]
fn one_number_for_an_alias_and_its_type(rt: HostRuntime) -> Result<(), Fail> {
    let mut terms = Terms::new(rt.alloc());
    let events = [
        at(Place::TypeAliasName, 7),
        at(Place::TypeAliasEquals, 1),
        at(Place::IntegerWord, 8),
        at(Place::OpName, 3),
        at(Place::TypeAlias, 7),
        at(Place::IntegerWord, 9),
    ];
    let aliases = aliases_at(rt.alloc(), &Own, &mut terms, &events)?;
    let numbers = begun_at(rt.alloc(), &Own, &aliases, &mut terms, &events)?;
    assert_eq!(rt; numbers.get(4).copied(), numbers.get(2).copied());
    assert_ne!(rt; numbers.get(5).copied(), numbers.get(4).copied());
    Ok(())
}

#[test]
fn results_before_an_arrow(rt: HostRuntime) -> Result<(), Fail> {
    let mut events = [
        at(Place::ResultsOpen, 1),
        at(Place::ResultsClose, 1),
        at(Place::FunctionArrow, 1),
        at(Place::ResultsOpen, 1),
    ];
    mark(rt.alloc(), &mut events)?;
    let open = match events[0].place {
        Place::FunctionOpen => true,
        _ => false,
    };
    assert!(rt; open);
    Ok(())
}

#[test]
fn where_each_kind_stands(rt: HostRuntime) -> Result<(), Fail> {
    let events = [
        at(Place::OpName, 3),
        at(Place::SignatureOpen, 1),
        at(Place::IntegerWord, 8),
        at(Place::SignatureClose, 1),
        at(Place::SignatureArrow, 1),
        at(Place::IntegerWord, 8),
    ];
    let mut terms = Terms::new(rt.alloc());
    let aliases = AliasNumbers::new(rt.alloc());
    let numbers = begun_at(rt.alloc(), &Own, &aliases, &mut terms, &events)?;
    assert_eq!(rt;
        first_type_count(rt.alloc(), &Own, &terms, &events, &numbers)?,
        Some(1)
    );
    assert_eq!(rt; first_part_too_many(rt.alloc(), &events)?, None);
    assert_eq!(rt; first_type_too_deep(rt.alloc(), &events)?, None);
    assert_eq!(rt; first_attr_too_deep(rt.alloc(), &events)?, None);
    Ok(())
}
