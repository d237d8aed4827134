//! Texts, and the first word that does not fit their form.

use crate::{cut, read_form};
use std::alloc::Global;
use std::process::Abort;
use std::test::Fail;

/// The words fit up to this one; all of them where it is none.
fn ends(rt: &impl Abort, alloc: Global, text: &[u8], end: Option<usize>) -> Result<(), Fail> {
    assert!(rt; text.len() <= 16777216);
    let cut = cut(alloc, text)?;
    let form = read_form(alloc, &cut.words)?;
    let count = form.places.len();
    let first = if form.whole { None } else { Some(count) };
    assert_eq!(rt; first, end);
    Ok(())
}

#[test]
fn operations(rt: HostRuntime) -> Result<(), Fail> {
    ends(&rt, rt.alloc(), b"", None)?;
    ends(&rt, rt.alloc(), b"\"t.x\"() : () -> ()", None)?;
    ends(&rt, rt.alloc(), b"\"t.x\"() : () ->", Some(7))
}

#[test]
fn results_and_operands(rt: HostRuntime) -> Result<(), Fail> {
    ends(
        &rt,
        rt.alloc(),
        b"%a:2, %b = \"t.x\"(%a#1, %a) : (i1, i1) -> (i1, i1, i1)",
        None,
    )?;
    ends(&rt, rt.alloc(), b"%a:2, = \"t.x\"() : () -> ()", Some(4))?;
    ends(&rt, rt.alloc(), b"\"t.x\"(%a#0x1) : (i1) -> ()", Some(4))
}

#[test]
fn regions(rt: HostRuntime) -> Result<(), Fail> {
    ends(
        &rt,
        rt.alloc(),
        b"\"t.x\"() ({ ^a(%x: i1): \"t.y\"() [^a] : () -> () }) : () -> ()",
        None,
    )?;
    ends(
        &rt,
        rt.alloc(),
        b"\"t.x\"() ({ ^a(): }) : () -> ()",
        Some(7),
    )?;
    ends(&rt, rt.alloc(), b"\"t.x\"() () : () -> ()", Some(4))
}

#[test]
fn dimensions(rt: HostRuntime) -> Result<(), Fail> {
    ends(&rt, rt.alloc(), b"!a = memref<0x4xi32>", None)?;
    ends(&rt, rt.alloc(), b"!a = memref<1x2x3x4x5x6x7x8xi32>", None)?;
    ends(&rt, rt.alloc(), b"!a = memref<4i32>", Some(5))
}

#[test]
fn types_of_llvm(rt: HostRuntime) -> Result<(), Fail> {
    ends(
        &rt,
        rt.alloc(),
        b"!a = !llvm.struct<(ptr, array<2 x i8>, func<void (ptr)>)>",
        None,
    )?;
    ends(&rt, rt.alloc(), b"!a = !llvm.array<2xi32>", Some(5))
}

#[test]
fn attributes(rt: HostRuntime) -> Result<(), Fail> {
    ends(
        &rt,
        rt.alloc(),
        b"#a = {x, y = [1 : i8, -2, true, @f, #d.m<w>, array<i8: 1, -1>]}",
        None,
    )?;
    ends(&rt, rt.alloc(), b"#a = 5 : memref<i1>", Some(4))?;
    ends(&rt, rt.alloc(), b"#a.b = 5", Some(0))
}
