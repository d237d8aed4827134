//! Buffers with a gap. These functions see the bounds of the gap, which contracts of lists do not.

ghost use Rattle.std.specs.Prelude.{◌≡◌, ◌+◌, ◌-◌, ◌≤◌, ◌<◌, length, IfOk, OnErr};
ghost use Rattle.edit_list.specs.Listed.{around};

use std::alloc::AllocError;

/// Moves the gap to a place, and gives its new end.
#[tactic(auto, using(crate::proofs::GapLaws::gap_laws))]
pub(crate) fn moved(items: &mut [u32], mut start: usize, mut end: usize, at: usize) -> usize
    requires ordered { start ≤ end }
    requires inside { end ≤ length items.old }
    requires at { at + end ≤ start + length items.old }
    ensures same { around items.new at result ≡ around items.old start end }
    ensures gap { result + start ≡ at + end }
{
    'back: while at < start {
        start -= 1;
        end -= 1;
        items[end] = items[start];
    }
    'on: while start < at {
        items[start] = items[end];
        start += 1;
        end += 1;
    }
    end
}

/// Makes room behind a buffer without a gap, and gives the length that it had.
#[tactic(auto, using(crate::proofs::GapLaws::gap_laws))]
pub(crate) fn grown(items: &mut Vec<u32>) -> Result<usize, AllocError>
    ensures at { IfOk result (λ start. start ≡ length items.old.items) }
    ensures room { IfOk result (λ start. start < length items.new.items) }
    ensures same { IfOk result (λ start. around items.new.items start (length items.new.items) ≡ items.old.items) }
    ensures err { OnErr result (items.new.items ≡ items.old.items) }
{
    let count = items.len();
    let room = match count.checked_mul(2) {
        Some(double) => double.max(4),
        None => return Err(AllocError),
    };
    items.resize(room, 0)?;
    Ok(count)
}
