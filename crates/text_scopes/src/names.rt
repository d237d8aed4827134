//! How many names there are.

ghost use Rattle.std.specs.Prelude.{◌≡◌, ◌+◌, length, if◌then◌else◌};
ghost use Rattle.text_scopes.specs.Names.{NamesBelow, is_named};

use crate::steps::Step;
use text_events::Event;

/// A number above the names of all events that define or use one.
pub fn name_count(steps: &[Step], events: &[Event]) -> usize
    requires { length steps.now ≡ length events.now }
    ensures { NamesBelow result steps.now events.now }
{
    let mut count = 0;
    'each: for index in 0..events.len() {
        count = count.max(bound_of(steps[index], events[index].name));
    }
    count
}

/// A number above the name, where the event defines or uses it.
fn bound_of(step: Step, name: u32) -> usize
    ensures { result ≡ (if is_named step then name + 1 else 0) }
{
    if is_named(step) { name as usize + 1 } else { 0 }
}

/// Whether the event defines or uses its name.
fn is_named(step: Step) -> bool
    ensures { result ≡ is_named step }
{
    match step {
        Step::Defines | Step::Uses => true,
        _ => false,
    }
}
