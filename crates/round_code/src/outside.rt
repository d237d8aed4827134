//! What external functions are told, and what they answer.

ghost use Rattle.std.specs.Prelude.{◌≡◌, ℕ, IfOk};
ghost use Rattle.operation_model.specs.Values as values;
ghost use Rattle.machine_model.specs.Worlds as model;
ghost use Rattle.number_model.specs.Numbers as numbers;
ghost use Rattle.value_code.specs.Models.{answer_of, values_of};
ghost use Rattle.std.specs.List.{slice_get};
ghost use Rattle.run_code.specs.Views.{bits_of};
ghost use Rattle.round_code.specs.Counts.{answer_for};

use number_code::{signed, wrapped};
use run_code::Width;
use sqlite_items::{Items, at};
use std::alloc::{AllocError, Global};
use value_code::{Looked, Value, number};

/// The integers of all values.
pub fn numbers(alloc: Global, vs: &[Value]) -> Result<Looked<Items<u64>>, AllocError>
    ensures { IfOk result (λ l. answer_of (λ ns. ns) l ≡ values.numbers (values_of vs.now)) }
{
    let mut all = Items::new(alloc);
    for v in vs {
        match number(v) {
            Looked::Gives(n) => all.push(n)?,
            Looked::Undefined => return Ok(Looked::Undefined),
            Looked::Outside => return Ok(Looked::Outside),
        }
    }
    Ok(Looked::Gives(all))
}

/// A number of a width as a signed one.
fn signed_number(w: Width, n: u64) -> i64
    ensures { result ≡ numbers.signed w.bits n }
{
    signed(w.bits, n) as i64
}

/// Numbers of these widths as signed ones, as many as there are of both.
pub fn signed_numbers(alloc: Global, widths: &[Width], ns: &[u64]) -> Result<Items<i64>, AllocError>
    ensures { IfOk result (λ zs. zs ≡ model.all_signed (bits_of widths.now) ns.now) }
{
    let mut all = Items::new(alloc);
    for i in 0..widths.len() {
        match at(ns, i) {
            Some(n) => all.push(signed_number(widths[i], *n))?,
            None => return Ok(all),
        }
    }
    Ok(all)
}

/// An answer as a number of a width: 0 where none is left.
fn answer_at(w: Width, answers: &[i64], i: usize) -> u64
    ensures { result ≡ answer_for w.bits (slice_get answers.now i) }
{
    match at(answers, i) {
        Some(z) => wrapped(w.bits, *z as i128),
        None => 0,
    }
}

/// The next answers as numbers of these widths: 0 where none is left.
pub fn answered(alloc: Global, widths: &[Width], answers: &[i64]) -> Result<Items<u64>, AllocError>
    ensures { IfOk result (λ ns. ns ≡ model.answered (bits_of widths.now) answers.now) }
{
    let mut all = Items::new(alloc);
    for i in 0..widths.len() {
        all.push(answer_at(widths[i], answers, i))?;
    }
    Ok(all)
}
