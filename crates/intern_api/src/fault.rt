//! What an interner answers where it has no handle.

use thiserror::Error;

/// Why a key has no handle.
#[derive(Clone, Copy, PartialEq, Eq, Debug, Error)]
pub enum InternFault {
    /// The shard of the key, or of a part of it, holds as many keys as it may, and not this one.
    #[error("a shard is full with {count} keys")]
    Full { count: u32 },
    /// Memory is wanting.
    #[error("memory is wanting")]
    NoMemory,
}
