//! The table.

ghost use Rattle.std.specs.Prelude.{◌≡◌, ℕ, ◌<◌, [], ◌∷◌, length, IfOk, OnOk};
ghost use Rattle.form_model.specs.Codes.{Env};
ghost use Rattle.form_model.specs.Codes as codes;
ghost use Rattle.value_code.specs.Models.{value_of, values_of};
ghost use Rattle.table_code.specs.Agreement.{Agrees, Binds};

use sqlite_items::Items;
use std::alloc::{AllocError, Global};
use value_code::{Value, copy_value};

/// The value of each number, where it has one.
pub type Table = Items<Option<Value>>;

/// No number has a value.
pub fn no_values(alloc: Global) -> Table
    ensures { Agrees result [] }
{
    Items::new(alloc)
}

/// Makes room for a number.
fn make_room(table: &mut Table, n: usize) -> Result<(), AllocError>
    ensures room { OnOk result (n < length table.new) }
    ensures same { OnOk result ((env : Env) → Agrees table.old env → Agrees table.new env) }
{
    while table.len() <= n {
        table.push(None)?;
    }
    Ok(())
}

/// Gives a number a value.
pub fn put(table: &mut Table, n: u32, v: Value) -> Result<(), AllocError>
    ensures { OnOk result ((env : Env) → Agrees table.old env → Agrees table.new ((n, value_of v) ∷ env)) }
{
    make_room(table, n as usize)?;
    table.set(n as usize, Some(v));
    Ok(())
}

/// Gives each number its value. False where they are not as many.
pub fn bind(alloc: Global, table: &mut Table, ids: &[u32], vs: &[Value]) -> Result<bool, AllocError>
    ensures { IfOk result (λ done. (env : Env) → Agrees table.old env → Binds done table.new (codes.bind ids.now (values_of vs.now) env)) }
{
    if ids.len() != vs.len() {
        return Ok(false);
    }
    for i in 0..ids.len() {
        put(table, ids[i], copy_value(alloc, &vs[i])?)?;
    }
    Ok(true)
}
