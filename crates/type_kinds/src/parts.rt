//! The parts of a text.

ghost use Rattle.std.specs.Prelude.{◌≡◌, IfOk};
ghost use Rattle.type_kinds.specs.Parts.{first_part, most_parts, parts_of};

use crate::begins::{Begin, begin_at, next_place};
use crate::tally::Tally;
use std::alloc::{AllocError, Global};
use text_events::Event;

/// How many parts a text may have.
pub const MOST_PARTS: u32 = 16777216;

/// The parts of what begins, where this is the size of its alias.
fn parts_of(begin: Begin, size: u32) -> u32
    ensures { result ≡ parts_of begin size }
{
    match begin {
        Begin::Nothing => 0,
        Begin::Type | Begin::Attr => 1,
        Begin::TypeAlias | Begin::AttrAlias => size,
    }
}

/// The first event with which the parts pass the limit.
pub fn first_part_too_many(alloc: Global, events: &[Event]) -> Result<Option<usize>, AllocError>
    ensures { IfOk result (λ found. found ≡ first_part events.now) }
{
    let mut tally = Tally::new(alloc);
    let mut total: u32 = 0;
    'each: for (index, event) in events.iter().enumerate() {
        let begin = begin_at(event.place, tally.minus, next_place(events, index));
        let parts = parts_of(begin, tally.size(event.name));
        if MOST_PARTS - total < parts {
            return Ok(Some(index));
        }
        total += parts;
        let amount = tally.amount + parts;
        tally.pass(*event, amount)?;
    }
    Ok(None)
}
