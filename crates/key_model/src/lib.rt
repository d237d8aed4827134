//! Keys, their outermost levels and parts, and the handles that stand for them.
#![tactic(auto)]

mod digest;
mod entry;
mod entry_copy;
mod entry_same;
mod equal;
mod from_parts;
mod handle;
mod heads;
mod key;
mod roll;
mod roll_attr;
mod roll_name;
mod roll_type;

pub use digest::digest_of;
pub use entry::{Entry, HandleList, Head};
pub use entry_copy::{copy_entry, copy_head};
pub use entry_same::{same_entry, same_head};
pub use from_parts::build;
pub use handle::{Handle, LAST_PLACE};
pub use heads::{attr_head, type_head};
pub use key::{Key, attr_hash, copy_key, hash_of, key_bytes, same_key, shard_of, type_hash};
