//! The operands of an operation.

ghost use Rattle.std.specs.Prelude.{◌≡◌, ℕ, IfOk, option_map};
ghost use Rattle.std.specs.Option.{option_copied};
ghost use Rattle.form_model.specs.Codes.{Env, lookups};
ghost use Rattle.value_code.specs.Models.{value_of};
ghost use Rattle.table_code.specs.Agreement.{Agrees, value_at, list_of};

use crate::table::Table;
use sqlite_items::{Items, at};
use std::alloc::{AllocError, Global};
use value_code::{Value, ValueList, copy_value};

/// The value of a number.
fn value_of_number(table: &Table, n: u32) -> Option<&Value>
    ensures { option_map value_of (option_copied result) ≡ value_at n table.now }
{
    match at(table.as_slice(), n as usize) {
        Some(Some(v)) => Some(v),
        _ => None,
    }
}

/// The values of numbers, in order. None where one has none.
pub fn operands(alloc: Global, table: &Table, ids: &[u32]) -> Result<Option<ValueList>, AllocError>
    ensures { IfOk result (λ o. (env : Env) → Agrees table.now env → list_of o ≡ lookups ids.now env) }
{
    let mut all = Items::new(alloc);
    for id in ids {
        match value_of_number(table, *id) {
            Some(v) => all.push(copy_value(alloc, v)?)?,
            None => return Ok(None),
        }
    }
    Ok(Some(all))
}
