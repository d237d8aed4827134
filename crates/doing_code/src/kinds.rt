//! What an operation does: a question to the memory, a call, a jump, a return, or an end.

use run_code::{Callee, Packing, Width};
use value_code::{Place, Value, ValueList};

/// A new memref: its alignment, its number of bytes up to 2 to the 65, and its sizes and strides as values.
#[derive(Debug, Drop)]
pub struct NewMemref {
    pub alignment: u64,
    pub bytes: u128,
    pub sizes: ValueList,
    pub strides: ValueList,
}

/// What an operation without regions does with its operands at hand.
#[derive(Debug, Drop)]
pub enum Doing<'a> {
    /// It is over, with this one result.
    Gives(Value),
    /// It loads an integer of a width, which is the result.
    Loads(Width, Place),
    /// It stores an integer of a width.
    Stores(Width, u64, Place),
    /// It makes a new buffer, by its alignment and its number of bytes up to 2 to the 65. The result is a pointer to it.
    Allocates(u64, u128),
    /// It makes a new memref, which is the result.
    Makes(NewMemref),
    /// It ends the buffer that begins at a place.
    Frees(Place),
    /// It calls a function with these values, and takes the results from what that returns.
    Calls(&'a Callee, ValueList, Packing),
    /// It goes to the block of this label with these values.
    Jumps(u32, ValueList),
    /// The function returns these values.
    Returns(ValueList),
    Undefined,
    Outside,
}
