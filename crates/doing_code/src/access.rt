//! Loads, stores, new buffers and ends of buffers.

ghost use Rattle.std.specs.Prelude.{◌≡◌, ◌*◌, IfOk};
ghost use Rattle.operation_model.specs.Forms as forms;
ghost use Rattle.operation_model.specs.Straight.{does};
ghost use Rattle.operation_model.specs.Straight as straight;
ghost use Rattle.operation_model.specs.Doings.{on};
ghost use Rattle.operation_model.specs.Doings.{Doing as doing};
ghost use Rattle.operation_model.specs.Doings.{Question as question};
ghost use Rattle.value_code.specs.Models.{place_looked_of, value_of, values_of};
ghost use Rattle.layout_code.specs.Sizes.{sizes_of};
ghost use Rattle.run_code.specs.Views.{layout_of};
ghost use Rattle.doing_code.specs.Doings.{Asked, Does, made_at};

use crate::kinds::{Doing, NewMemref};
use layout_code::{SizeItems, element_count, size_values, sizes_from, stride_values};
use number_code::unsigned;
use run_code::{Layout, Width, byte_size};
use std::alloc::{AllocError, Global};
use value_code::{Looked, Place, Value, element_place, number, part_at, place_of};

/// A load by a pointer.
pub fn load(w: Width, labels: &[u32], xs: &[Value]) -> Doing<'static>
    ensures { Does result (does (forms.Load w.bits) labels.now (values_of xs.now)) }
{
    match xs {
        [p] => match place_of(p) {
            Looked::Gives(place) => Doing::Loads(w, place),
            Looked::Undefined => Doing::Undefined,
            Looked::Outside => Doing::Outside,
        },
        _ => Doing::Outside,
    }
}

/// A store by a pointer.
pub fn store(w: Width, labels: &[u32], xs: &[Value]) -> Doing<'static>
    ensures { Does result (does (forms.Store w.bits) labels.now (values_of xs.now)) }
{
    match xs {
        [x, p] => match number(x) {
            Looked::Gives(n) => match place_of(p) {
                Looked::Gives(place) => Doing::Stores(w, n, place),
                Looked::Undefined => Doing::Undefined,
                Looked::Outside => Doing::Outside,
            },
            Looked::Undefined => Doing::Undefined,
            Looked::Outside => Doing::Outside,
        },
        _ => Doing::Outside,
    }
}

/// A new buffer of so many bytes.
pub fn allocate(labels: &[u32], xs: &[Value]) -> Doing<'static>
    ensures { Does result (does forms.Allocate labels.now (values_of xs.now)) }
{
    match xs {
        [n] => match number(n) {
            Looked::Gives(n) => Doing::Allocates(1, n as u128),
            Looked::Undefined => Doing::Undefined,
            Looked::Outside => Doing::Outside,
        },
        _ => Doing::Outside,
    }
}

/// Whether a number is an alignment: a power of two from 1 to 4096.
fn is_alignment(n: u64) -> bool
    ensures { result ≡ straight.is_alignment n }
{
    [1, 2, 4, 8, 16, 32, 64, 128, 256, 512, 1024, 2048, 4096].contains(&n)
}

/// A new buffer at an alignment, of a multiple of its bytes.
fn allocate_at(alignment: u64, size: u64) -> Doing<'static>
    ensures { Does result (straight.allocate_at alignment size) }
{
    if is_alignment(alignment) && size % alignment == 0 {
        Doing::Allocates(alignment, size as u128)
    } else {
        Doing::Undefined
    }
}

/// A new buffer at an alignment, both operands as they are.
fn allocate_by(a: &Value, n: &Value) -> Doing<'static>
    ensures { Does result (straight.allocate_aligned (value_of a.now) (value_of n.now)) }
{
    match number(a) {
        Looked::Gives(alignment) => match number(n) {
            Looked::Gives(size) => allocate_at(unsigned(64, alignment), unsigned(64, size)),
            Looked::Undefined => Doing::Undefined,
            Looked::Outside => Doing::Outside,
        },
        Looked::Undefined => Doing::Undefined,
        Looked::Outside => Doing::Outside,
    }
}

/// A new buffer at an alignment.
pub fn allocate_aligned(labels: &[u32], xs: &[Value]) -> Doing<'static>
    ensures { Does result (does forms.AllocateAligned labels.now (values_of xs.now)) }
{
    match xs {
        [a, n] => allocate_by(a, n),
        _ => Doing::Outside,
    }
}

/// The end of the buffer at a pointer.
pub fn free(labels: &[u32], xs: &[Value]) -> Doing<'static>
    ensures { Does result (does forms.Free labels.now (values_of xs.now)) }
{
    match xs {
        [p] => frees(place_of(p)),
        _ => Doing::Outside,
    }
}

/// The end of the buffer at a place.
fn frees(l: Looked<Place>) -> Doing<'static>
    ensures { Does result (on (place_looked_of l) (λ place. doing.Asks (question.Free place) doing.Ends)) }
{
    match l {
        Looked::Gives(place) => Doing::Frees(place),
        Looked::Undefined => Doing::Undefined,
        Looked::Outside => Doing::Outside,
    }
}

/// The end of a memref.
pub fn end_memref(labels: &[u32], xs: &[Value]) -> Doing<'static>
    ensures { Does result (does forms.EndMemref labels.now (values_of xs.now)) }
{
    match xs {
        [m] => match part_at(&[0], m) {
            Some(p) => frees(place_of(p)),
            None => Doing::Outside,
        },
        _ => Doing::Outside,
    }
}

/// A load of an element of a memref.
pub fn load_element(bits: Width, w: Width, labels: &[u32], xs: &[Value]) -> Doing<'static>
    ensures { Does result (does (forms.LoadElement bits.bits w.bits) labels.now (values_of xs.now)) }
{
    match xs {
        [m, indices @ ..] => match element_place(bits.bits, byte_size(w), m, indices) {
            Looked::Gives(place) => Doing::Loads(w, place),
            Looked::Undefined => Doing::Undefined,
            Looked::Outside => Doing::Outside,
        },
        [] => Doing::Outside,
    }
}

/// A store of an element of a memref.
pub fn store_element(bits: Width, w: Width, labels: &[u32], xs: &[Value]) -> Doing<'static>
    ensures { Does result (does (forms.StoreElement bits.bits w.bits) labels.now (values_of xs.now)) }
{
    match xs {
        [x, m, indices @ ..] => match element_place(bits.bits, byte_size(w), m, indices) {
            Looked::Gives(place) => match number(x) {
                Looked::Gives(n) => Doing::Stores(w, n, place),
                Looked::Undefined => Doing::Undefined,
                Looked::Outside => Doing::Outside,
            },
            Looked::Undefined => Doing::Undefined,
            Looked::Outside => Doing::Outside,
        },
        _ => Doing::Outside,
    }
}

/// The new memref of these sizes.
fn of_sizes(alloc: Global, l: &Layout, sizes: &SizeItems) -> Result<NewMemref, AllocError>
    ensures { IfOk result (λ m. Asked m.alignment m.bytes (made_at (values_of m.sizes) (values_of m.strides))
        (doing.Asks (question.Allocate l.now.alignment (straight.elements (sizes_of sizes.now) * straight.byte_size l.now.element.bits)) (straight.memref_at l.now.bits.bits (sizes_of sizes.now)))) }
{
    let count = element_count(sizes.as_slice());
    let bytes = (count * byte_size(l.element) as u128).min(1 << 65);
    let strides = stride_values(alloc, l.bits, sizes.as_slice())?;
    let sizes = size_values(alloc, sizes.as_slice())?;
    Ok(NewMemref {
        alignment: l.alignment,
        bytes,
        sizes,
        strides,
    })
}

/// A new memref.
pub fn new_memref(
    alloc: Global,
    l: &Layout,
    labels: &[u32],
    xs: &[Value],
) -> Result<Doing<'static>, AllocError>
    ensures { IfOk result (λ d. Does d (does (forms.NewMemref (layout_of l.now)) labels.now (values_of xs.now))) }
{
    match sizes_from(alloc, l.bits, l.sizes.as_slice(), xs)? {
        Looked::Gives(sizes) => Ok(Doing::Makes(of_sizes(alloc, l, &sizes)?)),
        Looked::Undefined => Ok(Doing::Undefined),
        Looked::Outside => Ok(Doing::Outside),
    }
}
