//! The calls of a shard's table.
#![tactic(auto, using(crate::proofs::EntriesLaws::table_laws))]

ghost use Rattle.std.specs.Prelude.{◌≡◌, ◌<◌, ◌≤◌, ◌++◌, ◌∷◌, [], ℕ, true, false, Some, Err, length, slice_get, option_copied, IfOk, IfErr, IfSome, IfNone, OnOk, OnErr};
ghost use Rattle.intern_api.specs.declared.fault.InternFault.TheVariants.{Full};
ghost use Rattle.intern_api.specs.Entries.{StandsAt, IsAbsent, IsFaultAt, IsPut};

use crate::fault::InternFault;
use crate::shard_table::ShardTable;
use indexmap::IndexSet;
use key_model::{Entry, Handle, LAST_PLACE, copy_entry};
use std::alloc::{AllocError, Global};
use tree_model::NoMemory;

impl ShardTable {
    /// The empty table of a shard. Without a cap it is never full.
    pub fn new(alloc: Global, shard: u32, shards: u32, cap: Option<u32>) -> ShardTable
        requires low { shard < shards }
        requires few { shards ≤ 16 }
        ensures empty { result.entries.keys ≡ [] }
        ensures shard { result.shard ≡ shard }
        ensures shards { result.shards ≡ shards }
        ensures cap { result.cap ≡ cap }
    {
        ShardTable {
            shard,
            shards,
            cap,
            entries: IndexSet::new(alloc),
        }
    }

    /// How many entries there are.
    pub fn len(&self) -> u64
        ensures { result ≡ length self.now.entries.keys }
    {
        self.entries.len() as u64
    }

    /// The handle of an entry.
    pub fn find(&self, entry: &Entry) -> Option<Handle>
        ensures found { IfSome result (StandsAt self.now.shard self.now.entries.keys entry.now) }
        ensures absent { IfNone result (IsAbsent entry.now self.now.entries.keys) }
    {
        match self.entries.get_full(entry) {
            Some((place, _)) => Some(Handle::at(self.shard, place as u64)),
            None => None,
        }
    }

    /// The entry of a handle.
    pub fn get(&self, handle: Handle) -> Option<&Entry>
        ensures { option_copied result ≡ slice_get self.now.entries.keys handle.place }
    {
        self.entries.get_index(handle.place() as usize)
    }

    /// A copy of the entry of a handle.
    pub fn entry_at(&self, alloc: Global, handle: Handle) -> Result<Entry, NoMemory>
        requires shard { handle.shard ≡ self.now.shard }
        requires within { handle.place < length self.now.entries.keys }
        ensures { IfOk result (λ entry. slice_get self.now.entries.keys handle.place ≡ Some entry) }
    {
        match self.get(handle) {
            Some(entry) => Ok(copy_entry(alloc, entry)?),
            None => Err(AllocError),
        }
    }

    /// Whether the table holds as many entries as it may.
    fn is_full(&self) -> bool
        ensures full { result ≡ true → self.now.cap ≡ Some (length self.now.entries.keys) }
        ensures room { result ≡ false → self.now.cap ≡ Some (length self.now.entries.keys) → ⊥ }
        ensures below { result ≡ false → (most : ℕ) → self.now.cap ≡ Some most → length self.now.entries.keys < most }
    {
        match self.cap {
            Some(most) => self.len() == u64::from(most),
            None => false,
        }
    }

    /// Puts an entry last that isn't there.
    pub fn append(&mut self, entry: Entry) -> Result<Handle, InternFault>
        requires { IsAbsent entry self.old.entries.keys }
        ensures shard { self.new.shard ≡ self.old.shard }
        ensures shards { self.new.shards ≡ self.old.shards }
        ensures cap { self.new.cap ≡ self.old.cap }
        ensures longer { OnOk result (self.new.entries.keys ≡ self.old.entries.keys ++ entry ∷ []) }
        ensures handle { IfOk result (λ h. h ≡ record { shard = self.old.shard; place = length self.old.entries.keys }) }
        ensures kept { OnErr result (self.new.entries.keys ≡ self.old.entries.keys) }
        ensures fault { IfErr result (IsFaultAt self.old.cap (length self.old.entries.keys)) }
        ensures full { self.old.cap ≡ Some (length self.old.entries.keys) → result ≡ Err (Full (length self.old.entries.keys)) }
    {
        let count = self.len();
        if self.is_full() {
            return Err(InternFault::Full {
                count: count as u32,
            });
        }
        if count >= LAST_PLACE {
            return Err(InternFault::NoMemory);
        }
        match self.entries.insert_full(entry) {
            Ok(_) => Ok(Handle::at(self.shard, count)),
            Err(_) => Err(InternFault::NoMemory),
        }
    }

    /// The handle of an entry, which is put last where it isn't there.
    pub fn put(&mut self, entry: Entry) -> Result<Handle, InternFault>
        ensures shard { self.new.shard ≡ self.old.shard }
        ensures shards { self.new.shards ≡ self.old.shards }
        ensures cap { self.new.cap ≡ self.old.cap }
        ensures put { IfOk result (IsPut self.old.shard self.old.entries.keys self.new.entries.keys entry) }
        ensures kept { OnErr result (self.new.entries.keys ≡ self.old.entries.keys) }
        ensures absent { OnErr result (IsAbsent entry self.old.entries.keys) }
        ensures fault { IfErr result (IsFaultAt self.old.cap (length self.old.entries.keys)) }
    {
        match self.find(&entry) {
            Some(handle) => Ok(handle),
            None => self.append(entry),
        }
    }
}
