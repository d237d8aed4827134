//! What an operation that only computes gives of its operands.

ghost use Rattle.std.specs.Prelude.{◌≡◌, IfOk};
ghost use Rattle.operation_model.specs.Pures as model;
ghost use Rattle.number_code.specs.Models.{binary_of, comparison_of};
ghost use Rattle.value_code.specs.Models.{integer_of, pointer_of, values_behind, values_of};
ghost use Rattle.run_code.specs.Views.{change_of, pure_of};
ghost use Rattle.operation_model.specs.Straight.{byte_size};
ghost use Rattle.compute_code.specs.Given.{given};

use crate::casts::has_sizes;
use crate::inserts::with_part;
use number_code::{Binary, Comparison, Resize};
use run_code::{Change, Pure, Width, byte_size};
use std::alloc::{AllocError, Global};
use value_code::{
    Looked, Place, Value, compared, copy_value, move_pointer, part_at, selected, taken_size,
    two_numbers, with_width,
};

fn of_two(o: Binary, w: Width, xs: &[Value]) -> Looked<u64>
    ensures { integer_of result ≡ model.gives (model.TwoNumbers (binary_of o) w.bits) (values_of xs.now) }
{
    match xs {
        [x, y] => two_numbers(o, w.bits, x, y),
        _ => Looked::Outside,
    }
}

fn of_comparison(c: Comparison, w: Width, xs: &[Value]) -> Looked<u64>
    ensures { integer_of result ≡ model.gives (model.Compares (comparison_of c) w.bits) (values_of xs.now) }
{
    match xs {
        [x, y] => compared(c, w.bits, x, y),
        _ => Looked::Outside,
    }
}

fn of_change(r: Change, w: Width, xs: &[Value]) -> Looked<u64>
    ensures { integer_of result ≡ model.gives (model.Resizes (change_of r) w.bits) (values_of xs.now) }
{
    match xs {
        [x] => match r {
            Change::ExtendSigned(m) => with_width(Resize::ExtendSigned(m.bits), w.bits, x),
            Change::Extend(m) => with_width(Resize::Extend(m.bits), w.bits, x),
            Change::Truncate(flags, m) => with_width(Resize::Truncate(flags, m.bits), w.bits, x),
            Change::Keep => with_width(Resize::Keep, w.bits, x),
        },
        _ => Looked::Outside,
    }
}

fn of_choice(xs: &[Value]) -> Looked<&Value>
    ensures { values_behind result ≡ model.gives model.Selects (values_of xs.now) }
{
    match xs {
        [c, x, y] => selected(c, x, y),
        _ => Looked::Outside,
    }
}

fn of_move(xs: &[Value]) -> Looked<&Value>
    ensures { values_behind result ≡ model.gives model.Moves (values_of xs.now) }
{
    match xs {
        [x] => Looked::Gives(x),
        _ => Looked::Outside,
    }
}

fn of_part<'a>(path: &[u64], xs: &'a [Value]) -> Looked<&'a Value>
    ensures { values_behind result ≡ model.gives (model.TakesPart path.now) (values_of xs.now) }
{
    match xs {
        [x] => match part_at(path, x) {
            Some(part) => Looked::Gives(part),
            None => Looked::Outside,
        },
        _ => Looked::Outside,
    }
}

fn of_size(bits: Width, rank: u64, xs: &[Value]) -> Looked<&Value>
    ensures { values_behind result ≡ model.gives (model.TakesSize bits.bits rank) (values_of xs.now) }
{
    match xs {
        [m, x] => taken_size(bits.bits, rank, m, x),
        _ => Looked::Outside,
    }
}

fn of_pointer(w: Width, xs: &[Value]) -> Looked<Place>
    ensures { pointer_of result ≡ model.gives (model.MovesPointer (byte_size w.bits)) (values_of xs.now) }
{
    match xs {
        [x, y] => move_pointer(byte_size(w), x, y),
        _ => Looked::Outside,
    }
}

fn of_insert(alloc: Global, path: &[u64], xs: &[Value]) -> Result<Looked<Value>, AllocError>
    ensures { IfOk result (λ l. given l ≡ model.gives (model.PutsPart path.now) (values_of xs.now)) }
{
    match xs {
        [x, y] => with_part(alloc, path, copy_value(alloc, y)?, x),
        _ => Ok(Looked::Outside),
    }
}

fn of_cast<'a>(bits: Width, fixed: &[Option<u64>], xs: &'a [Value]) -> Looked<&'a Value>
    ensures { values_behind result ≡ model.gives (model.HasSizes bits.bits fixed.now) (values_of xs.now) }
{
    match xs {
        [x] => match has_sizes(bits, fixed, x) {
            Looked::Gives(_) => Looked::Gives(x),
            Looked::Undefined => Looked::Undefined,
            Looked::Outside => Looked::Outside,
        },
        _ => Looked::Outside,
    }
}

/// An integer as a value.
#[tactic(auto, using(value_code::proofs::Shapes::shapes))]
fn integer(l: Looked<u64>) -> Looked<Value>
    ensures { given result ≡ integer_of l }
{
    match l {
        Looked::Gives(n) => Looked::Gives(Value::Integer(n)),
        Looked::Undefined => Looked::Undefined,
        Looked::Outside => Looked::Outside,
    }
}

/// A place as a value.
#[tactic(auto, using(value_code::proofs::Shapes::shapes))]
fn pointer(l: Looked<Place>) -> Looked<Value>
    ensures { given result ≡ pointer_of l }
{
    match l {
        Looked::Gives(p) => Looked::Gives(Value::Pointer(p.buffer, p.offset)),
        Looked::Undefined => Looked::Undefined,
        Looked::Outside => Looked::Outside,
    }
}

/// A copy of the value behind a reference.
fn copied(alloc: Global, l: Looked<&Value>) -> Result<Looked<Value>, AllocError>
    ensures { IfOk result (λ v. given v ≡ values_behind l.entry) }
{
    match l {
        Looked::Gives(v) => Ok(Looked::Gives(copy_value(alloc, v)?)),
        Looked::Undefined => Ok(Looked::Undefined),
        Looked::Outside => Ok(Looked::Outside),
    }
}

/// What an operation that only computes gives: one value.
pub fn computed(alloc: Global, p: &Pure, xs: &[Value]) -> Result<Looked<Value>, AllocError>
    ensures { IfOk result (λ l. given l ≡ model.gives (pure_of p.now) (values_of xs.now)) }
{
    match p {
        Pure::Known(v) => Ok(Looked::Gives(copy_value(alloc, v)?)),
        Pure::TwoNumbers(o, w) => Ok(integer(of_two(*o, *w, xs))),
        Pure::Compares(c, w) => Ok(integer(of_comparison(*c, *w, xs))),
        Pure::Resizes(r, w) => Ok(integer(of_change(*r, *w, xs))),
        Pure::Selects => copied(alloc, of_choice(xs)),
        Pure::Moves => copied(alloc, of_move(xs)),
        Pure::TakesPart(path) => copied(alloc, of_part(path.as_slice(), xs)),
        Pure::PutsPart(path) => of_insert(alloc, path.as_slice(), xs),
        Pure::MovesPointer(w) => Ok(pointer(of_pointer(*w, xs))),
        Pure::HasSizes(bits, fixed) => copied(alloc, of_cast(*bits, fixed.as_slice(), xs)),
        Pure::TakesSize(bits, rank) => copied(alloc, of_size(*bits, *rank, xs)),
    }
}
