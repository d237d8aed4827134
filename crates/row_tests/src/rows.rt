//! Rows of sets on cases.

use crate::shapes::{Case, shape};
use crate::texts::{put_attrs, put_numbered, put_props, put_shape, put_template, put_types};
use cut_code::{FrameTree, Frames, PartTree};
use row_code::Rows;
use std::alloc::Global;
use tree_model::{Bytes, NoMemory};

/// The set's name, the row's place with its root, and how many bits an index has.
pub fn put_place<R: Rows>(
    out: &mut Bytes,
    title: &[u8],
    set: &R,
    at: u32,
    bits: u32,
) -> Result<(), NoMemory> {
    out.put(title)?;
    put_numbered(out, b" ", at)?;
    out.put(b" (")?;
    match set.infos().get(at as usize) {
        Some(info) => out.put(info.root.as_slice())?,
        None => out.put(b"no row")?,
    }
    put_numbered(out, b") at ", bits)?;
    out.put(b": ")
}

fn put_case<R: Rows>(
    alloc: Global,
    out: &mut Bytes,
    title: &[u8],
    set: &R,
    case: &Case,
) -> Result<(), NoMemory> {
    let shape = shape(alloc, case)?;
    put_place(out, title, set, case.at, case.bits)?;
    put_shape(out, &shape)?;
    match set.line(alloc, case.bits, case.at, &shape)? {
        Some(template) => put_template(out, &template),
        None => out.put(b"  undefined\n"),
    }
}

/// The templates of straight rows.
pub fn put_cases<R: Rows>(
    alloc: Global,
    out: &mut Bytes,
    title: &[u8],
    set: &R,
    cases: &[Case],
) -> Result<(), NoMemory> {
    for case in cases {
        put_case(alloc, out, title, set, case)?;
    }
    Ok(())
}

fn put_part(out: &mut Bytes, part: &PartTree) -> Result<(), NoMemory> {
    out.put(b"  an argument from ")?;
    put_types(out, part.takes.as_slice())?;
    out.put(b"\n")?;
    put_template(out, &part.gives)
}

fn put_frame(out: &mut Bytes, frame: &FrameTree) -> Result<(), NoMemory> {
    out.put(b"  ")?;
    out.put(frame.name.as_slice())?;
    put_props(out, frame.props.as_slice())?;
    put_attrs(out, frame.attrs.as_slice())?;
    out.put(b"\n")?;
    for part in frame.entry.as_slice() {
        put_part(out, part)?;
    }
    Ok(())
}

fn put_framed<F: Frames>(
    alloc: Global,
    out: &mut Bytes,
    title: &[u8],
    set: &F,
    case: &Case,
) -> Result<(), NoMemory> {
    let shape = shape(alloc, case)?;
    put_place(out, title, set, case.at, case.bits)?;
    put_shape(out, &shape)?;
    match set.frame(alloc, case.bits, case.at, &shape)? {
        Some(frame) => put_frame(out, &frame),
        None => out.put(b"  undefined\n"),
    }
}

/// The frames of framing rows.
pub fn put_frames<F: Frames>(
    alloc: Global,
    out: &mut Bytes,
    title: &[u8],
    set: &F,
    cases: &[Case],
) -> Result<(), NoMemory> {
    for case in cases {
        put_framed(alloc, out, title, set, case)?;
    }
    Ok(())
}
