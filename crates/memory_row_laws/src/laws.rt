//! Laws of rows for memory, each the contract of a function that does nothing.

ghost use Rattle.memory_row_laws.specs.Promises.{MemoryRowsHold};

/// The rows of memref.dealloc, load, store, rank and cast are sound, where an index has 32 bits and where it has 64.
pub fn law_memory_rows()
    ensures { MemoryRowsHold }
{}
