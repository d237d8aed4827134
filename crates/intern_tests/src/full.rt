//! Shards that are full, and parts that stand once.

use crate::fixtures::{double, int_is_full, int_stands, single, stands};
use intern_api::PlainInterner;
use std::alloc::Global;
use std::test::Fail;
use tree_model::NoMemory;

#[test]
fn a_shard_is_full_at_its_cap(rt: HostRuntime) -> Result<(), Fail> {
    let mut interner = PlainInterner::new(rt.alloc(), 16, Some(2))?;
    assert!(rt; int_stands(&mut interner, 32, 6, 0));
    assert!(rt; int_stands(&mut interner, 27, 6, 1));
    assert!(rt; int_is_full(&mut interner, 58, 2));
    Ok(())
}

#[test]
fn another_shard_has_room(rt: HostRuntime) -> Result<(), Fail> {
    let mut interner = PlainInterner::new(rt.alloc(), 16, Some(1))?;
    assert!(rt; int_stands(&mut interner, 32, 6, 0));
    assert!(rt; int_is_full(&mut interner, 27, 1));
    assert!(rt; int_stands(&mut interner, 64, 7, 0));
    Ok(())
}

#[test]
fn a_key_of_a_full_shard_answers(rt: HostRuntime) -> Result<(), Fail> {
    let mut interner = PlainInterner::new(rt.alloc(), 16, Some(1))?;
    assert!(rt; int_stands(&mut interner, 32, 6, 0));
    assert!(rt; int_is_full(&mut interner, 27, 1));
    assert!(rt; int_stands(&mut interner, 32, 6, 0));
    Ok(())
}

fn single_stands(interner: &mut PlainInterner, alloc: Global) -> Result<bool, NoMemory> {
    let key = single(alloc)?;
    Ok(stands(interner, &key, 0, 1))
}

fn double_stands(interner: &mut PlainInterner, alloc: Global) -> Result<bool, NoMemory> {
    let key = double(alloc)?;
    Ok(stands(interner, &key, 0, 2))
}

#[test]
fn two_structs_share_their_field(rt: HostRuntime) -> Result<(), Fail> {
    let mut interner = PlainInterner::new(rt.alloc(), 1, Some(3))?;
    assert_eq!(rt; single_stands(&mut interner, rt.alloc()), Ok(true));
    assert_eq!(rt; double_stands(&mut interner, rt.alloc()), Ok(true));
    assert!(rt; int_is_full(&mut interner, 2, 3));
    Ok(())
}

/// How many of `i1` to `i64` have handles.
fn count_of_widths(interner: &mut PlainInterner) -> u32 {
    let mut count = 0u32;
    for width in 1..65 {
        if interner.intern(&crate::fixtures::int(width)).is_ok() {
            count = count.saturating_add(1);
        }
    }
    count
}

#[test]
fn sixty_four_keys_fit_under_a_cap_of_64(rt: HostRuntime) -> Result<(), Fail> {
    let mut interner = PlainInterner::new(rt.alloc(), 16, Some(64))?;
    assert_eq!(rt; count_of_widths(&mut interner), 64);
    Ok(())
}
