//! The function type of the operation that is read at each event.

ghost use Rattle.std.specs.Prelude.{◌≡◌, ◌<◌, ◌^◌, ℕ, IfOk, OnOk, get_or, length, reverse};
ghost use Rattle.use_kinds.specs.Flat.{left_passed, signatures_of};

use std::alloc::{AllocError, Global};
use text_events::Event;
use text_grammar::Place;

/// How many events stand from the function type on of what is read at each event, 0 where there is none.
pub(crate) fn signatures(alloc: Global, events: &[Event]) -> Result<Vec<u32>, AllocError>
    requires { length events.now < 2 ^ 32 }
    ensures { IfOk result (λ v. v.items ≡ signatures_of events.now) }
{
    let mut found = Vec::with_capacity(alloc, events.len())?;
    let mut inner: Vec<u32> = Vec::new(alloc);
    let mut index = events.len();
    'each: while index > 0 {
        index -= 1;
        let left = (events.len() - index) as u32;
        pass_region(&mut inner, events[index].place, left)?;
        found.push(innermost(&inner))?;
    }
    found.reverse();
    Ok(found)
}

/// What is read in the innermost region, 0 for nothing.
fn innermost(inner: &[u32]) -> u32
    ensures { result ≡ get_or (reverse inner.now) 0 0 }
{
    match inner.last() {
        Some(left) => *left,
        None => 0,
    }
}

/// Passes an event from the right, with which so many are left.
fn pass_region(inner: &mut Vec<u32>, place: Place, left: u32) -> Result<(), AllocError>
    ensures { OnOk result ((over : ℕ) → get_or (reverse inner.new.items) over 0 ≡ left_passed place left (λ n. get_or (reverse inner.old.items) n 0) over) }
{
    match place {
        Place::SignatureOpen => {
            let _ = inner.pop();
            inner.push(left)?;
            Ok(())
        }
        Place::RegionOpen => {
            let _ = inner.pop();
            Ok(())
        }
        Place::RegionClose => {
            inner.push(0)?;
            Ok(())
        }
        _ => Ok(()),
    }
}
