//! The tables of keys, and the trait of what gives keys their handles.
#![tactic(auto)]

mod by_handles;
mod fault;
mod intern_attrs;
mod intern_types;
mod interner;
mod place;
mod plain;
mod plain_calls;
mod read;
mod recent;
mod shard_table;
mod table_calls;
mod tables;

pub use by_handles::{same_by_handles, through_handle};
pub use fault::InternFault;
pub use interner::Interner;
pub use plain::PlainInterner;
pub use shard_table::ShardTable;
pub use tables::Tables;
