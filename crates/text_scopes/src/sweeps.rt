//! Passes over the turns of a text.

ghost use Rattle.std.specs.Prelude.{◌≡◌, ◌<◌, ◌^◌, Bool, IfOk, List, length};
ghost use Rattle.text_events.specs.declared.event.Event.{Event};
ghost use Rattle.text_scopes.specs.declared.steps.Step.TheVariants as Step;
ghost use Rattle.text_scopes.specs.Seen.{Turn, again, first_again, seen, turns};

use crate::names::name_count;
use crate::scopes::{Scopes, find, take};
use crate::steps::Step;
use std::alloc::{AllocError, Global};
use text_events::Event;

/// The first definition of a name of which a definition is seen.
pub fn first_again(
    alloc: Global,
    outward: bool,
    steps: &[Step],
    events: &[Event],
) -> Result<Option<usize>, AllocError>
    requires same { length steps.now ≡ length events.now }
    requires room { length events.now < 2 ^ 32 }
    ensures { IfOk result (λ o. o ≡ first_again outward (turns steps.now events.now)) }
{
    let names = name_count(steps, events);
    let mut slots: Vec<Option<u32>> = vec![in alloc; None; names]?;
    let table = slots.as_mut_slice();
    let mut scopes = Scopes {
        start: 0,
        log: Vec::new(alloc),
    };
    'each: for index in 0..events.len() {
        let step = steps[index];
        let name = events[index].name;
        let found = find(&scopes, table, name);
        if is_again(step, found) {
            return Ok(Some(index));
        }
        take(outward, step, name, index as u32, &mut scopes, table)?;
    }
    Ok(None)
}

fn is_again(step: Step, found: Option<u32>) -> bool
    ensures { (outward : Bool) (before : List Turn) (e : Event) → (step ≡ Step.Defines → found ≡ seen outward e.name 0 before) → result ≡ again outward before (step, e) }
{
    match step {
        Step::Defines => found.is_some(),
        _ => false,
    }
}
