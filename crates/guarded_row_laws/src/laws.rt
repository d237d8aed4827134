//! Laws of these rows, each the contract of a function that does nothing.

ghost use Rattle.guarded_row_laws.specs.Promises.{AllocRowHolds, DimRowHolds};

/// The row of memref.dim does what the operation does of each memref that has its sizes.
pub fn law_dim_row()
    ensures { DimRowHolds }
{}

/// The row of memref.alloc without alignment does what the operation does wherever the bytes are a number of the width.
pub fn law_alloc_row()
    ensures { AllocRowHolds }
{}
