//! The depth of attributes.

ghost use Rattle.std.specs.Prelude.{◌≡◌, ◌+◌, ◌<◌, ◌≤◌, ◌^◌, IfOk};
ghost use Rattle.type_kinds.specs.Depths.{attr_depth, first_deep_attr, lists_behind};

use crate::begins::{Begin, begin_at, next_place};
use crate::tally::Tally;
use crate::type_depth::MOST_DEPTH;
use std::alloc::{AllocError, Global};
use text_events::Event;
use text_grammar::Place;

/// The depth of the attribute that begins, 0 for none.
fn attr_depth(begin: Begin, outer: u64, size: u32) -> u64
    requires { outer < 2 ^ 63 }
    ensures { result ≡ attr_depth begin outer size }
{
    match begin {
        Begin::Nothing => 0,
        Begin::AttrAlias => outer + size as u64,
        _ => outer + 1,
    }
}

/// How many lists and dictionaries are open behind a place.
fn lists_behind(place: Place, outer: u64) -> u64
    requires { outer < 2 ^ 63 }
    ensures is { result ≡ lists_behind place outer }
    ensures within { result ≤ outer + 1 }
{
    match place {
        Place::ItemsOpen | Place::AttrDictOpen => outer + 1,
        Place::ItemsClose | Place::AttrDictClose => outer.saturating_sub(1),
        _ => outer,
    }
}

/// The first attribute that is deeper than attributes may be.
pub fn first_attr_too_deep(alloc: Global, events: &[Event]) -> Result<Option<usize>, AllocError>
    ensures { IfOk result (λ found. found ≡ first_deep_attr events.now) }
{
    let mut tally = Tally::new(alloc);
    let mut outer: u64 = 0;
    'each: for (index, event) in events.iter().enumerate() {
        let begin = begin_at(event.place, tally.minus, next_place(events, index));
        let depth = attr_depth(begin, outer, tally.size(event.name));
        if depth > MOST_DEPTH {
            return Ok(Some(index));
        }
        let amount = tally.amount.max(depth as u32);
        tally.pass(*event, amount)?;
        outer = lists_behind(event.place, outer);
    }
    Ok(None)
}
