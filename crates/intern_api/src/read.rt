//! Reads the key of a handle.

ghost use Rattle.std.specs.Prelude.{◌≡◌, ◌*◌, ◌+◌, List, IfOk, option_copied};
ghost use Rattle.std.specs.List.{AllZip};
ghost use Rattle.key_model.specs.declared.key.Key.{Key};

use crate::tables::Tables;
use key_model::{Entry, Handle, Key, build};
use std::alloc::AllocError;
use tree_model::NoMemory;

impl Tables {
    ghost use Rattle.intern_api.specs.Held.{entry_in};
    ghost use Rattle.intern_api.specs.Interning.{Holds};

    /// The entry of a handle.
    pub fn entry(&self, handle: Handle) -> Option<&Entry>
        ensures { option_copied result ≡ entry_in self.now.list.items handle }
    {
        match self.list.get(handle.shard() as usize) {
            Some(table) => table.get(handle),
            None => None,
        }
    }

    /// The key of a handle, where it has at most so many levels.
    #[cycle(read_key)]
    pub fn read_within(&self, handle: Handle, room: u32) -> Result<Key, NoMemory>
        ensures { (k : Key) → Holds self.now handle k → IfOk result (λ r. r ≡ k) }
    {
        if room == 0 {
            return Err(AllocError);
        }
        match self.entry(handle) {
            Some(entry) => {
                match self.read_all(entry.children.as_slice(), room - 1) {
                    Ok(parts) => build(self.alloc, &entry.head, parts),
                    Err(fault) => Err(fault),
                }
            }
            None => Err(AllocError),
        }
    }

    #[cycle(read_key)]
    fn read_all(&self, handles: &[Handle], room: u32) -> Result<Vec<Key>, NoMemory>
        ensures { (ks : List Key) → AllZip (Holds self.now) handles.now ks → IfOk result (λ r. r.items ≡ ks) }
    {
        let mut keys = Vec::new(self.alloc);
        for handle in handles {
            let key = self.read_within(*handle, room)?;
            keys.push(key)?;
        }
        Ok(keys)
    }
}
