//! An interner through its trait.

use crate::fixtures::{int, nested};
use intern_api::{InternFault, PlainInterner, same_by_handles, through_handle};
use key_model::{Handle, Key, same_key};
use std::alloc::Global;
use std::test::Fail;
use tree_model::NoMemory;

/// Whether the key is read by its handle.
fn reads_back(interner: &mut PlainInterner, key: &Key) -> bool {
    match through_handle(interner, key) {
        Ok(read) => same_key(&read, key),
        Err(_) => false,
    }
}

fn reads_nested(interner: &mut PlainInterner, alloc: Global) -> Result<bool, NoMemory> {
    let key = nested(alloc, 16)?;
    Ok(reads_back(interner, &key))
}

#[test]
fn a_key_is_read_by_its_handle(rt: HostRuntime) -> Result<(), Fail> {
    let mut interner = PlainInterner::new(rt.alloc(), 16, None)?;
    assert!(rt; reads_back(&mut interner, &int(32)));
    assert_eq!(rt; reads_nested(&mut interner, rt.alloc()), Ok(true));
    Ok(())
}

/// Whether arrays of these depths have one handle.
fn same_depths(
    interner: &mut PlainInterner,
    alloc: Global,
    a: u32,
    b: u32,
) -> Result<bool, InternFault> {
    let (Ok(first), Ok(second)) = (nested(alloc, a), nested(alloc, b)) else {
        return Err(InternFault::NoMemory);
    };
    same_by_handles(interner, &first, &second)
}

#[test]
fn handles_tell_keys_apart(rt: HostRuntime) -> Result<(), Fail> {
    let mut interner = PlainInterner::new(rt.alloc(), 16, None)?;
    assert_eq!(rt; same_depths(&mut interner, rt.alloc(), 3, 3), Ok(true));
    assert_eq!(rt; same_depths(&mut interner, rt.alloc(), 3, 2), Ok(false));
    Ok(())
}

fn array_handle(interner: &mut PlainInterner, alloc: Global) -> Result<Handle, InternFault> {
    match nested(alloc, 1) {
        Ok(key) => interner.intern(&key),
        Err(_) => Err(InternFault::NoMemory),
    }
}

/// Whether the key of the handle is read, where it has at most so many levels.
fn reads_within(interner: &PlainInterner, handle: Handle, levels: u32) -> bool {
    interner.tables().read_within(handle, levels).is_ok()
}

#[test]
fn a_key_of_more_levels_than_asked_for_is_not_read(rt: HostRuntime) -> Result<(), Fail> {
    let mut interner = PlainInterner::new(rt.alloc(), 1, None)?;
    let handle = array_handle(&mut interner, rt.alloc());
    let handle = handle.expect(&rt, "memory");
    assert!(rt; !reads_within(&interner, handle, 0));
    assert!(rt; !reads_within(&interner, handle, 1));
    assert!(rt; reads_within(&interner, handle, 2));
    Ok(())
}
