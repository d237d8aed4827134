//! The names of values, labels, entries and aliases.

ghost use Rattle.std.specs.Prelude.{◌≡◌, ◌<◌, ◌^◌, ◌==◌, IfOk, length};
ghost use Rattle.text_scopes.specs.Bodies.{class_in, opens_body, outside};
ghost use Rattle.text_scopes.specs.Tables.{attr_alias_step, definitions, entry_step, first_redefined, first_unknown, goes_out, label_step, step_of, steps_of, type_alias_step, value_step};

use crate::bodies::{Body, Class, behind, opens_body};
use crate::resolving::{Uses, resolve_steps};
use crate::steps::Step;
use crate::sweeps::first_again;
use std::alloc::{AllocError, Global};
use text_events::Event;
use text_grammar::Place;

/// Which names.
#[derive(Clone, Copy, Drop)]
pub enum Names {
    Values,
    Labels,
    Entries,
    TypeAliases,
    AttrAliases,
}

/// The first name that is defined twice in one scope.
pub fn first_redefined(
    alloc: Global,
    names: Names,
    classes: &[Class],
    events: &[Event],
) -> Result<Option<usize>, AllocError>
    requires { length events.now < 2 ^ 32 }
    ensures { IfOk result (λ o. o ≡ first_redefined names (class_in classes.now) events.now) }
{
    let steps = steps_of(alloc, names, classes, events)?;
    first_again(alloc, goes_out(names), &steps, events)
}

/// The definition for which each use stands.
pub fn resolve(
    alloc: Global,
    names: Names,
    classes: &[Class],
    events: &[Event],
) -> Result<Uses, AllocError>
    requires { length events.now < 2 ^ 32 }
    ensures definitions { IfOk result (λ u. u.definitions.items ≡ definitions names (class_in classes.now) events.now) }
    ensures undefined { IfOk result (λ u. u.undefined ≡ first_unknown names (class_in classes.now) events.now) }
{
    let steps = steps_of(alloc, names, classes, events)?;
    resolve_steps(alloc, goes_out(names), &steps, events)
}

fn goes_out(names: Names) -> bool
    ensures { result ≡ goes_out names }
{
    match names {
        Names::Values => true,
        _ => false,
    }
}

/// What each event is to the names.
fn steps_of(
    alloc: Global,
    names: Names,
    classes: &[Class],
    events: &[Event],
) -> Result<Vec<Step>, AllocError>
    ensures steps { IfOk result (λ v. v.items ≡ steps_of names (class_in classes.now) outside events.now) }
    ensures same { IfOk result (λ v. length v.items ≡ length events.now) }
{
    let mut steps = Vec::with_capacity(alloc, events.len())?;
    let mut body = Body {
        within: 0,
        at_module: false,
    };
    for event in events {
        steps.push(step_of(names, body, event.place))?;
        body = behind(classes, body, *event);
    }
    Ok(steps)
}

#[inline(always)]
fn step_of(names: Names, body: Body, place: Place) -> Step
    ensures { result ≡ step_of names body place }
{
    match names {
        Names::Values => value_step(body, place),
        Names::Labels => label_step(body, place),
        Names::Entries => entry_step(place),
        Names::TypeAliases => type_alias_step(place),
        Names::AttrAliases => attr_alias_step(place),
    }
}

fn value_step(body: Body, place: Place) -> Step
    ensures { result ≡ value_step body place }
{
    match place {
        Place::ResultName => Step::Defines,
        Place::ArgName => Step::Defines,
        Place::UseName => Step::Uses,
        Place::RegionOpen => if opens_body(body) {
            Step::Ends
        } else {
            Step::Opens
        },
        Place::RegionClose => if body.within == 0 {
            Step::Ends
        } else {
            Step::Closes
        },
        Place::SignatureColon => if body.within == 0 {
            Step::Ends
        } else {
            Step::Stays
        },
        Place::BlockColon => if body.within == 0 {
            Step::Ends
        } else {
            Step::Stays
        },
        _ => Step::Stays,
    }
}

fn label_step(body: Body, place: Place) -> Step
    ensures { result ≡ label_step body place }
{
    match place {
        Place::BlockLabel => Step::Defines,
        Place::SuccessorName => if body.within == 0 {
            Step::Misses
        } else {
            Step::Uses
        },
        Place::RegionOpen => Step::Opens,
        Place::RegionClose => Step::Closes,
        _ => Step::Stays,
    }
}

fn entry_step(place: Place) -> Step
    ensures { result ≡ entry_step place }
{
    match place {
        Place::EntryName => Step::Defines,
        Place::OpName => Step::Opens,
        Place::SignatureColon => Step::Closes,
        Place::AttrDictOpen => Step::Opens,
        Place::AttrDictClose => Step::Closes,
        _ => Step::Stays,
    }
}

fn type_alias_step(place: Place) -> Step
    ensures { result ≡ type_alias_step place }
{
    match place {
        Place::TypeAliasName => Step::Defines,
        _ => Step::Stays,
    }
}

fn attr_alias_step(place: Place) -> Step
    ensures { result ≡ attr_alias_step place }
{
    match place {
        Place::AttrAliasName => Step::Defines,
        _ => Step::Stays,
    }
}
