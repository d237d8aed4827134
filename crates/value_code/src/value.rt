//! Values.

ghost use Rattle.std.specs.Prelude.{◌≡◌, IfOk};

use sqlite_items::Items;
use std::alloc::{AllocError, Global};

/// Values in order.
pub type ValueList = Items<Value>;

/// A value: an integer, a pointer by the number of a buffer and a byte offset, what was never set, or a struct or array.
#[derive(Debug, Drop)]
pub enum Value {
    Integer(u64),
    Pointer(u64, u64),
    Unset,
    Aggregate(ValueList),
}

/// A place in memory: a buffer and a byte offset.
#[derive(Clone, Copy, PartialEq, Eq, Debug)]
pub struct Place {
    pub buffer: u64,
    pub offset: u64,
}

#[cycle(copy_value)]
pub fn copy_value(alloc: Global, v: &Value) -> Result<Value, AllocError>
    ensures { IfOk result (λ u. u ≡ v.now) }
{
    match v {
        Value::Integer(n) => Ok(Value::Integer(*n)),
        Value::Pointer(buffer, offset) => Ok(Value::Pointer(*buffer, *offset)),
        Value::Unset => Ok(Value::Unset),
        Value::Aggregate(parts) => Ok(Value::Aggregate(copy_values(alloc, parts.as_slice())?)),
    }
}

#[cycle(copy_value)]
pub fn copy_values(alloc: Global, values: &[Value]) -> Result<ValueList, AllocError>
    ensures { IfOk result (λ copies. copies ≡ values.now) }
{
    let mut copies = Items::new(alloc);
    for value in values {
        copies.push(copy_value(alloc, value)?)?;
    }
    Ok(copies)
}
