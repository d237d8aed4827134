//! Memories in code: buffers as the structured meaning has them, and numbered cells as the llvm meaning has them.
#![tactic(auto)]

mod buffers;
mod bytes;
mod cells;
mod memory;
mod sizes;

pub use buffers::{Buffer, Buffers, no_buffers};
pub use bytes::{ByteMap, no_bytes, number_from, put_number};
pub use cells::{Allocation, Cells, free_cells};
pub use memory::Memory;
pub use sizes::in_width;
