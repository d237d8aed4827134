//! More keys than are remembered.

use crate::fixtures::{int, int_stands};
use intern_api::PlainInterner;
use std::test::Fail;

/// Interns so many types of integers.
fn fill(interner: &mut PlainInterner, widths: u32) {
    for width in 0..widths {
        let _ = interner.intern(&int(width));
    }
}

#[test]
fn handles_stay_when_their_keys_are_no_longer_remembered(rt: HostRuntime) -> Result<(), Fail> {
    let mut interner = PlainInterner::new(rt.alloc(), 1, None)?;
    fill(&mut interner, 5000);
    assert!(rt; int_stands(&mut interner, 0, 0, 0));
    assert!(rt; int_stands(&mut interner, 4999, 0, 4999));
    Ok(())
}
