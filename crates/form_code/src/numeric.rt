//! The forms of operations on integers.
#![tactic(auto, using(crate::proofs::FormLemmas::forms))]

ghost use Rattle.std.specs.Prelude.{◌≡◌};
ghost use Rattle.std.specs.Option.{option_map};
ghost use Rattle.number_code.specs.Models.{binary_of, comparison_of as stands_for_comparison, flags_of as stands_for_flags};
ghost use Rattle.number_model.specs.Numbers as numbers;
ghost use Rattle.operation_model.specs.Forms as forms;
ghost use Rattle.operation_model.specs.Pures as pures;
ghost use Rattle.operation_model.specs.Values as values;
ghost use Rattle.run_code.specs.Views.{change_of, form_of};
ghost use Rattle.form_model.specs.Classes as model;
ghost use Rattle.form_code.specs.ClassViews.{numeric_class, resizing_of, wrapping_of};
ghost use Rattle.form_code.specs.SeenViews.{seen_view};

use crate::classes::{Numeric, Resizing, Wrapping};
use crate::names::value;
use crate::properties::{comparison_of, flags_of, integer_of};
use crate::seen::{Seen, operand_width, result_width};
use number_code::{Binary, Flags, wrapped};
use run_code::{Change, Form, Pure, Width};
use value_code::Value;

/// An integer that is known, modulo 2 to the width.
fn known_integer(w: Width, z: i64) -> Form
    ensures { form_of result ≡ forms.Computes (pures.Known (values.Integer (numbers.wrapped w.bits z))) }
{
    Form::Computes(Pure::Known(Value::Integer(wrapped(w.bits, i128::from(z)))))
}

fn constant(seen: &Seen<'_>) -> Option<Form>
    ensures { option_map form_of result ≡ model.constant (seen_view seen.now) }
{
    match integer_of(&value(), seen.props) {
        Some(z) => match result_width(seen) {
            Some(w) => Some(known_integer(w, z)),
            None => None,
        },
        None => None,
    }
}

fn two(o: Binary, seen: &Seen<'_>) -> Option<Form>
    ensures { option_map form_of result ≡ model.two (binary_of o) (seen_view seen.now) }
{
    match operand_width(seen, 0) {
        Some(w) => Some(Form::Computes(Pure::TwoNumbers(o, w))),
        None => None,
    }
}

/// An operation with its promises.
fn promising(o: Wrapping, flags: Flags) -> Binary
    ensures { binary_of result ≡ wrapping_of o (stands_for_flags flags) }
{
    match o {
        Wrapping::Add => Binary::Add(flags),
        Wrapping::Subtract => Binary::Subtract(flags),
        Wrapping::Multiply => Binary::Multiply(flags),
        Wrapping::ShiftLeft => Binary::ShiftLeft(flags),
    }
}

fn flagged(o: Wrapping, seen: &Seen<'_>) -> Option<Form>
    ensures { option_map form_of result ≡ model.flagged (wrapping_of o) (seen_view seen.now) }
{
    match flags_of(seen.props) {
        Some(flags) => two(promising(o, flags), seen),
        None => None,
    }
}

fn comparison(seen: &Seen<'_>) -> Option<Form>
    ensures { option_map form_of result ≡ model.comparison (seen_view seen.now) }
{
    match comparison_of(seen.props) {
        Some(c) => match operand_width(seen, 0) {
            Some(w) => Some(Form::Computes(Pure::Compares(c, w))),
            None => None,
        },
        None => None,
    }
}

/// Extended where the result is wider, cut where it is narrower, else as it stands.
fn cast(extend: Change, w: Width, m: Width) -> Change
    ensures { change_of result ≡ model.cast_by (λ n. change_of extend) w.bits m.bits }
{
    if w.bits < m.bits {
        extend
    } else if m.bits < w.bits {
        let flags = Flags {
            signed: false,
            unsigned: false,
        };
        Change::Truncate(flags, m)
    } else {
        Change::Keep
    }
}

/// The change from one width to another.
fn changed(how: Resizing, w: Width, m: Width) -> Change
    ensures { change_of result ≡ resizing_of how w.bits m.bits }
{
    match how {
        Resizing::ExtendSigned => Change::ExtendSigned(m),
        Resizing::Extend => Change::Extend(m),
        Resizing::Truncate(flags) => Change::Truncate(flags, m),
        Resizing::Cast => cast(Change::ExtendSigned(m), w, m),
        Resizing::CastUnsigned => cast(Change::Extend(m), w, m),
    }
}

/// From the width of the operand to that of the result.
fn resized(how: Resizing, seen: &Seen<'_>) -> Option<Form>
    ensures { option_map form_of result ≡ model.resized (resizing_of how) (seen_view seen.now) }
{
    match operand_width(seen, 0) {
        Some(w) => match result_width(seen) {
            Some(m) => Some(Form::Computes(Pure::Resizes(changed(how, w, m), w))),
            None => None,
        },
        None => None,
    }
}

fn truncation(seen: &Seen<'_>) -> Option<Form>
    ensures { option_map form_of result ≡ model.truncation (seen_view seen.now) }
{
    match flags_of(seen.props) {
        Some(flags) => resized(Resizing::Truncate(flags), seen),
        None => None,
    }
}

/// The form of an operation on integers.
pub(crate) fn numeric_form(class: Numeric, seen: &Seen<'_>) -> Option<Form>
    ensures { option_map form_of result ≡ numeric_class class (seen_view seen.now) }
{
    match class {
        Numeric::Constant => constant(seen),
        Numeric::Flagged(o) => flagged(o, seen),
        Numeric::Two(o) => two(o, seen),
        Numeric::Comparison => comparison(seen),
        Numeric::Resized(how) => resized(how, seen),
        Numeric::Truncation => truncation(seen),
    }
}
