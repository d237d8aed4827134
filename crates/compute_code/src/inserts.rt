//! Structs and arrays with another part.

ghost use Rattle.std.specs.Prelude.{◌≡◌, ◌+◌, ◌<◌, ◌++◌, ◌∷◌, take, drop, length, IfOk};
ghost use Rattle.operation_model.specs.Values as model;
ghost use Rattle.value_code.specs.Models.{answer_of, value_of, values_of};
ghost use Rattle.number_model.specs.Answers.{Gives};

use sqlite_items::{Items, at};
use std::alloc::{AllocError, Global};
use value_code::{Looked, Value, ValueList, copy_values};

/// The parts with another one at a place.
fn replaced(alloc: Global, parts: &[Value], i: usize, new: Value) -> Result<ValueList, AllocError>
    requires { i < length parts.now }
    ensures { IfOk result (λ copies. copies ≡ (take i parts.now ++ new ∷ drop (i + 1) parts.now)) }
{
    let mut copies = copy_values(alloc, &parts[..i])?;
    copies.push(new)?;
    copies.append(copy_values(alloc, &parts[i + 1..])?)?;
    Ok(copies)
}

/// A struct or array with another part at a path.
#[cycle(with_part)]
#[tactic(auto, using(crate::proofs::PartLaws::inserts))]
pub fn with_part(
    alloc: Global,
    path: &[u64],
    part: Value,
    v: &Value,
) -> Result<Looked<Value>, AllocError>
    ensures { IfOk result (λ l. answer_of value_of l ≡ model.with_part path.now (value_of part) (value_of v.now)) }
{
    match path {
        [] => Ok(Looked::Gives(part)),
        [i, rest @ ..] => match v {
            Value::Aggregate(parts) => put_inside(alloc, *i, rest, part, parts.as_slice()),
            Value::Integer(_) | Value::Pointer(_, _) | Value::Unset => Ok(Looked::Outside),
        },
    }
}

/// A struct or array of these parts with another part at a path.
#[cycle(with_part)]
#[tactic(auto, using(crate::proofs::PartLaws::inserts))]
fn put_inside(
    alloc: Global,
    i: u64,
    rest: &[u64],
    part: Value,
    parts: &[Value],
) -> Result<Looked<Value>, AllocError>
    ensures { IfOk result (λ l. answer_of value_of l ≡ model.with_part (i ∷ rest.now) (value_of part) (model.together (values_of parts.now))) }
{
    match at(parts, i as usize) {
        Some(old) => match with_part(alloc, rest, part, old)? {
            Looked::Gives(new) => together(alloc, parts, i as usize, new),
            Looked::Undefined => Ok(Looked::Undefined),
            Looked::Outside => Ok(Looked::Outside),
        },
        None => Ok(Looked::Outside),
    }
}

/// A struct or array of the parts with another one at a place.
#[tactic(auto, using(crate::proofs::PartLaws::inserts))]
fn together(
    alloc: Global,
    parts: &[Value],
    i: usize,
    new: Value,
) -> Result<Looked<Value>, AllocError>
    requires { i < length parts.now }
    ensures { IfOk result (λ l. answer_of value_of l ≡ Gives (model.together (model.replaced (values_of parts.now) i (value_of new)))) }
{
    let parts = replaced(alloc, parts, i, new)?;
    Ok(Looked::Gives(Value::Aggregate(parts)))
}
