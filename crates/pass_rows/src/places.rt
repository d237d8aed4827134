//! Places of a pass's table, by set.

ghost use Rattle.std.specs.Prelude.{◌≡◌, slice_get};
ghost use Rattle.pass_rows.specs.Parts.{patterns_at};
ghost use Rattle.pass_rows.specs.Places.{pattern_at};

use crate::parts::{Part, size};

/// A pattern by its set and its place there.
#[derive(Clone, Copy, Debug)]
pub struct Place {
    pub part: Part,
    pub at: u32,
}

/// The pattern at a place of sets in order.
pub fn find(parts: &[Part], at: u32) -> Option<Place>
    ensures { pattern_at result ≡ slice_get (patterns_at parts.now) at }
{
    let mut left = at;
    'each: for part in parts {
        let count = size(*part);
        if left < count {
            return Some(Place {
                part: *part,
                at: left,
            });
        }
        left -= count;
    }
    None
}
