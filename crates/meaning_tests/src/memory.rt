//! Buffers and cells.

use crate::ends::{Ended, ends_l, ends_s};
use small_programs::{Ty, constant, one_function, plain};
use std::alloc::Global;
use std::test::Fail;
use tree_model::{ModuleTree, NoMemory};

const N: Ty = Ty::Index;

const I: Ty = Ty::Int(32);

const M: Ty = Ty::Memref(32);

const L: Ty = Ty::Int(64);

/// The size of a memref of as many elements as the argument says.
fn size(alloc: Global) -> Result<ModuleTree, NoMemory> {
    let lines = [
        constant(b"arith.constant", &[(1, N)], 0, N),
        plain(b"memref.alloc", &[(2, M)], &[0]),
        plain(b"memref.dim", &[(3, N)], &[2, 1]),
        plain(b"func.return", &[], &[3]),
    ];
    one_function(alloc, &[(0, N)], &[N], &[N], &lines)
}

/// The element at 0 that was never stored.
fn unset(alloc: Global) -> Result<ModuleTree, NoMemory> {
    let lines = [
        constant(b"arith.constant", &[(1, N)], 0, N),
        plain(b"memref.alloc", &[(2, M)], &[0]),
        plain(b"memref.load", &[(3, I)], &[2, 1]),
        plain(b"func.return", &[], &[3]),
    ];
    one_function(alloc, &[(0, N)], &[N], &[I], &lines)
}

/// The element at 0 after a store of 7 there.
fn stored(alloc: Global) -> Result<ModuleTree, NoMemory> {
    let lines = [
        constant(b"arith.constant", &[(1, N)], 0, N),
        constant(b"arith.constant", &[(4, I)], 7, I),
        plain(b"memref.alloc", &[(2, M)], &[0]),
        plain(b"memref.store", &[], &[4, 2, 1]),
        plain(b"memref.load", &[(3, I)], &[2, 1]),
        plain(b"func.return", &[], &[3]),
    ];
    one_function(alloc, &[(0, N)], &[N], &[I], &lines)
}

/// A memref that is freed twice.
fn freed_twice(alloc: Global) -> Result<ModuleTree, NoMemory> {
    let lines = [
        plain(b"memref.alloc", &[(2, M)], &[0]),
        plain(b"memref.dealloc", &[], &[2]),
        plain(b"memref.dealloc", &[], &[2]),
        plain(b"func.return", &[], &[]),
    ];
    one_function(alloc, &[(0, N)], &[N], &[], &lines)
}

#[test]
fn a_size_of_0_is_told(rt: HostRuntime) -> Result<(), Fail> {
    let alloc = rt.alloc();
    assert_eq!(rt; ends_s(alloc, &size(alloc)?, &[0])?, Ended::One(0));
    Ok(())
}

#[test]
fn a_size_below_0_is_undefined(rt: HostRuntime) -> Result<(), Fail> {
    let alloc = rt.alloc();
    assert_eq!(rt; ends_s(alloc, &size(alloc)?, &[-1])?, Ended::Undefined);
    Ok(())
}

#[test]
fn what_was_stored_is_loaded(rt: HostRuntime) -> Result<(), Fail> {
    let alloc = rt.alloc();
    assert_eq!(rt; ends_s(alloc, &stored(alloc)?, &[1])?, Ended::One(7));
    Ok(())
}

#[test]
fn a_load_of_nothing_is_undefined(rt: HostRuntime) -> Result<(), Fail> {
    let alloc = rt.alloc();
    assert_eq!(rt; ends_s(alloc, &unset(alloc)?, &[1])?, Ended::Undefined);
    Ok(())
}

#[test]
fn a_store_past_the_end_is_undefined(rt: HostRuntime) -> Result<(), Fail> {
    let alloc = rt.alloc();
    assert_eq!(rt; ends_s(alloc, &stored(alloc)?, &[0])?, Ended::Undefined);
    Ok(())
}

#[test]
fn a_second_end_of_a_buffer_is_undefined(rt: HostRuntime) -> Result<(), Fail> {
    let alloc = rt.alloc();
    assert_eq!(rt;
        ends_s(alloc, &freed_twice(alloc)?, &[1])?,
        Ended::Undefined
    );
    Ok(())
}
