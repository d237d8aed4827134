//! The definition for which each use stands.

ghost use Rattle.std.specs.Prelude.{◌≡◌, ◌<◌, ◌^◌, ◌++◌, Bool, IfOk, List, [], None, Option, ℕ, drop, length, reverse, is_some, ◌-◌, if◌then◌else◌};
ghost use Rattle.text_events.specs.declared.event.Event.{Event};
ghost use Rattle.text_scopes.specs.Seen.{first_undefined, or_else, resolved, told, turned, turns};
ghost use Rattle.text_scopes.specs.Sights.{either, first_missing, inner, is_use, join, lacks, read, sights};

use crate::names::name_count;
use crate::scopes::{Scopes, find, take};
use crate::steps::Step;
use std::alloc::{AllocError, Global};
use text_events::Event;

/// The uses of a text, in order.
#[derive(Drop)]
pub struct Uses {
    /// The event of the definition for which each use stands.
    pub definitions: Vec<Option<u32>>,
    /// The event of the first use that stands for none.
    pub undefined: Option<usize>,
}

/// The definition for which each use stands.
pub fn resolve_steps(
    alloc: Global,
    outward: bool,
    steps: &[Step],
    events: &[Event],
) -> Result<Uses, AllocError>
    requires same { length steps.now ≡ length events.now }
    requires room { length events.now < 2 ^ 32 }
    ensures definitions { IfOk result (λ u. u.definitions.items ≡ resolved outward [] (turns steps.now events.now)) }
    ensures undefined { IfOk result (λ u. u.undefined ≡ first_undefined outward [] (turns steps.now events.now)) }
{
    let behind = sights(alloc, outward, false, steps, events)?;
    let ahead = sights(alloc, outward, true, steps, events)?;
    let last = events.len().saturating_sub(1) as u32;
    let definitions = join(alloc, last, &behind, ahead)?;
    let undefined = first_missing(steps, &definitions);
    Ok(Uses {
        definitions,
        undefined,
    })
}

/// What each use sees, looking back; where `mirrored`, over the turns read from the end.
fn sights(
    alloc: Global,
    outward: bool,
    mirrored: bool,
    steps: &[Step],
    events: &[Event],
) -> Result<Vec<Option<u32>>, AllocError>
    requires same { length steps.now ≡ length events.now }
    requires room { length events.now < 2 ^ 32 }
    ensures { IfOk result (λ v. v.items ≡ sights outward [] (read mirrored (turns steps.now events.now))) }
{
    let names = name_count(steps, events);
    let mut slots: Vec<Option<u32>> = vec![in alloc; None; names]?;
    let table = slots.as_mut_slice();
    let mut scopes = Scopes {
        start: 0,
        log: Vec::new(alloc),
    };
    let mut seen = Vec::new(alloc);
    'each: for passed in 0..events.len() {
        let index = index_of(mirrored, passed, events.len());
        let step = step_at(mirrored, steps[index]);
        let name = events[index].name;
        tell(&mut seen, step, find(&scopes, table, name))?;
        take(outward, step, name, passed as u32, &mut scopes, table)?;
    }
    Ok(seen)
}

/// The place of a turn among the events.
fn index_of(mirrored: bool, passed: usize, count: usize) -> usize
    requires { passed < count }
    ensures is { result ≡ (if mirrored then count - 1 - passed else passed) }
    ensures bound { result < count }
{
    if mirrored { count - 1 - passed } else { passed }
}

#[inline(always)]
fn step_at(mirrored: bool, step: Step) -> Step
    ensures { result ≡ (if mirrored then turned step else step) }
{
    if mirrored {
        match step {
            Step::Opens => Step::Closes,
            Step::Closes => Step::Opens,
            _ => step,
        }
    } else {
        step
    }
}

#[inline(always)]
fn tell(seen: &mut Vec<Option<u32>>, step: Step, found: Option<u32>) -> Result<(), AllocError>
    ensures { IfOk result (λ u. seen.new.items ≡ seen.old.items ++ told step found) }
{
    match step {
        Step::Uses => {
            seen.push(found)?;
        }
        Step::Misses => {
            seen.push(None)?;
        }
        _ => {}
    }
    Ok(())
}

/// What is behind, and where that is nothing what is ahead.
fn join(
    alloc: Global,
    last: u32,
    behind: &[Option<u32>],
    ahead: Vec<Option<u32>>,
) -> Result<Vec<Option<u32>>, AllocError>
    ensures { IfOk result (λ v. v.items ≡ join last behind.now (reverse ahead.items)) }
{
    let mut all = Vec::with_capacity(alloc, behind.len())?;
    let mut left = ahead;
    for one in behind {
        let other = left.pop();
        all.push(either(last, *one, other))?;
    }
    Ok(all)
}

fn either(last: u32, one: Option<u32>, other: Option<Option<u32>>) -> Option<u32>
    ensures { result ≡ either last one (inner other) }
{
    match (one, other) {
        (Some(place), _) => Some(place),
        (None, Some(Some(beyond))) => Some(last.saturating_sub(beyond)),
        (None, _) => None,
    }
}

/// The first use without a definition.
fn first_missing(steps: &[Step], definitions: &[Option<u32>]) -> Option<usize>
    ensures { result ≡ first_missing steps.now definitions.now 0 }
{
    let mut next = 0;
    for index in 0..steps.len() {
        if is_use(steps[index]) {
            if lacks(definitions, next) {
                return Some(index);
            }
            next += 1;
        }
    }
    None
}

fn is_use(step: Step) -> bool
    ensures { result ≡ is_use step }
{
    match step {
        Step::Uses | Step::Misses => true,
        _ => false,
    }
}

fn lacks(definitions: &[Option<u32>], next: usize) -> bool
    ensures { result ≡ lacks (drop next definitions.now) }
{
    match definitions.get(next) {
        Some(Some(_)) => false,
        _ => true,
    }
}
