//! What types in order are.

ghost use Rattle.std.specs.Prelude.{◌≡◌, IfOk, map};
ghost use Rattle.std.specs.List.{list_all};
ghost use Rattle.plain_tree.specs.Types.{plain_type};
ghost use Rattle.plain_tree.specs.ValueTypes as value;
ghost use Rattle.rule_model.specs.Forms as model;
ghost use Rattle.value_types.specs.Views.{plain_types};

use crate::kinds::{is_index, is_own, is_value, same};
use std::alloc::Global;
use tree_model::{NoMemory, TypeTree};

/// Whether all are of `index`.
pub fn all_index(types: &[&TypeTree]) -> bool
    ensures { result ≡ list_all model.is_index (plain_types types.now) }
{
    for t in types {
        if !is_index(t) {
            return false;
        }
    }
    true
}

/// Whether all are value types of the llvm dialect.
pub fn all_own(types: &[&TypeTree]) -> bool
    ensures { result ≡ list_all value.is_own (plain_types types.now) }
{
    for t in types {
        if !is_own(t) {
            return false;
        }
    }
    true
}

/// Whether all are value types.
pub fn all_value(types: &[&TypeTree]) -> bool
    ensures { result ≡ list_all value.is_value (plain_types types.now) }
{
    for t in types {
        if !is_value(t) {
            return false;
        }
    }
    true
}

/// Whether all types in a type are value types of the llvm dialect.
pub fn own_in(types: &[TypeTree]) -> bool
    ensures { result ≡ list_all value.is_own (map plain_type types.now) }
{
    for t in types {
        if !is_own(t) {
            return false;
        }
    }
    true
}

/// Whether all types in a type are value types.
pub fn value_in(types: &[TypeTree]) -> bool
    ensures { result ≡ list_all value.is_value (map plain_type types.now) }
{
    for t in types {
        if !is_value(t) {
            return false;
        }
    }
    true
}

/// Whether two lists of types are one.
pub fn same_all(types: &[&TypeTree], others: &[&TypeTree]) -> bool
    ensures { result ≡ model.same_all (plain_types types.now) (plain_types others.now) }
{
    if types.len() != others.len() {
        return false;
    }
    for (t, other) in types.iter().zip(others) {
        if !same(t, other) {
            return false;
        }
    }
    true
}

/// Whether types are those in a type.
pub fn same_as(types: &[&TypeTree], others: &[TypeTree]) -> bool
    ensures { result ≡ model.same_all (plain_types types.now) (map plain_type others.now) }
{
    if types.len() != others.len() {
        return false;
    }
    for (t, other) in types.iter().zip(others) {
        if !same(t, other) {
            return false;
        }
    }
    true
}

/// The types of values, borrowed.
pub fn borrowed<'a>(
    alloc: Global,
    values: &'a [(u32, TypeTree)],
) -> Result<Vec<&'a TypeTree>, NoMemory>
    ensures { IfOk result (λ ts. plain_types ts.items ≡ map (λ v. plain_type v.1) values.now) }
{
    let mut types = Vec::with_capacity(alloc, values.len())?;
    for value in values {
        types.push(&value.1)?;
    }
    Ok(types)
}
