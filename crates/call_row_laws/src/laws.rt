//! Laws of these rows, each the contract of a function that does nothing.

ghost use Rattle.call_row_laws.specs.Promises.{CallRowHolds, CastRowHolds, ReturnRowHolds};

/// The row of func.call is sound where the callee's name isn't that of an allocator: memrefs are handed over by their fields,
/// and several results come as a struct.
pub fn law_call_row()
    ensures { CallRowHolds }
{}

/// The row of func.return is sound: several values are returned as the struct of them.
pub fn law_return_row()
    ensures { ReturnRowHolds }
{}

/// The row of casts between types that become the same is sound.
pub fn law_cast_row()
    ensures { CastRowHolds }
{}
