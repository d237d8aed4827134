//! The calls of the interner of one worker.

ghost use Rattle.std.specs.Prelude.{◌≡◌, ◌<◌, ◌≤◌, ℕ, Some, None, length, slice_get, IfOk, IfErr, IfSome, [], ◌∷◌};
ghost use Rattle.intern_api.specs.Empty.{AreEmpty};
ghost use Rattle.intern_api.specs.Together.{AreTogether};
ghost use Rattle.key_model.specs.declared.handle.Handle.{Handle};
ghost use Rattle.key_model.specs.declared.key.Key.{Key};

use crate::fault::InternFault;
use crate::interner::Interner;
use crate::plain::PlainInterner;
use crate::recent::remember;
use crate::shard_table::ShardTable;
use crate::tables::Tables;
use key_model::{Handle, Key, copy_key};
use std::alloc::Global;
use std::collections::HashMap;
use tree_model::NoMemory;

/// Makes the empty tables of so many shards.
fn empty_tables(alloc: Global, shards: u32, cap: Option<u32>) -> Result<Vec<ShardTable>, NoMemory>
    requires few { shards ≤ 16 }
    ensures { IfOk result (λ tables. AreEmpty shards shards cap tables.items) }
{
    let mut tables = Vec::with_capacity(alloc, shards as usize)?;
    for shard in 0..shards {
        tables.push(ShardTable::new(alloc, shard, shards, cap))?;
    }
    Ok(tables)
}

fn cap_of(tables: &[ShardTable]) -> Option<u32>
    ensures { (t : ShardTable) → slice_get tables.now 0 ≡ Some t → result ≡ t.cap }
{
    match tables.first() {
        Some(table) => table.cap,
        None => None,
    }
}

fn tables_of(alloc: Global, list: Vec<ShardTable>) -> Tables
    requires { AreTogether list.items }
    ensures list { result.list.items ≡ list.items }
    ensures shards { result.shards ≡ length list.items }
{
    let shards = list.len() as u32;
    let cap = cap_of(list.as_slice());
    Tables {
        alloc,
        shards,
        cap,
        list,
    }
}

impl PlainInterner {
    ghost use Rattle.intern_api.specs.Interning.{Stops, Holds};
    ghost use Rattle.intern_api.specs.Knowing.{Knows, Interns};

    /// An interner that knows no key. Without a cap no shard is ever full.
    pub fn new(alloc: Global, shards: u32, cap: Option<u32>) -> Result<PlainInterner, NoMemory>
        requires some { 0 < shards }
        requires few { shards ≤ 16 }
        ensures shards { IfOk result (λ p. p.tables.shards ≡ shards) }
        ensures cap { IfOk result (λ p. p.tables.cap ≡ cap) }
        ensures empty { IfOk result (λ p. (h : Handle) (k : Key) → Knows p.tables h k → ⊥) }
    {
        let list = empty_tables(alloc, shards, cap)?;
        Ok(PlainInterner {
            tables: Tables {
                alloc,
                shards,
                cap,
                list,
            },
            recent: HashMap::new(alloc),
        })
    }

    /// The interner over tables that stand already. It knows what they hold, and takes no memory.
    pub fn of_tables(alloc: Global, tables: Vec<ShardTable>) -> PlainInterner
        requires { AreTogether tables.items }
        ensures tables { result.tables.list.items ≡ tables.items }
        ensures shards { result.tables.shards ≡ length tables.items }
    {
        PlainInterner {
            tables: tables_of(alloc, tables),
            recent: HashMap::new(alloc),
        }
    }

    /// Its tables, to be read.
    pub fn tables(&self) -> &Tables
        ensures { result.now ≡ self.now.tables }
    {
        &self.tables
    }

    fn recall(&self, key: &Key) -> Option<Handle>
        ensures { IfSome result (λ h. Knows self.now.tables h key.now) }
    {
        self.recent.get(key).copied()
    }

    fn note(&mut self, key: &Key, handle: Handle)
        requires { Knows self.old.tables handle key.now }
        ensures { self.new.tables ≡ self.old.tables }
    {
        if let Ok(copy) = copy_key(self.tables.alloc, key) {
            remember(&mut self.recent, copy, handle);
        }
    }

    fn intern_anew(&mut self, key: &Key) -> Result<Handle, InternFault>
        ensures ok { IfOk result (Interns self.old.tables self.new.tables key.now) }
        ensures err { IfErr result (Stops self.old.tables self.new.tables (key.now ∷ [])) }
    {
        match self.tables.intern_key(key) {
            Ok(handle) => {
                self.note(key, handle);
                Ok(handle)
            }
            Err(fault) => Err(fault),
        }
    }

    /// The handle of a key. The key is added where it isn't known, after its parts, and nothing else is. A
    /// shard is full only for want of room for the key or a part of it.
    pub fn intern(&mut self, key: &Key) -> Result<Handle, InternFault>
        ensures ok { IfOk result (Interns self.old.tables self.new.tables key.now) }
        ensures err { IfErr result (Stops self.old.tables self.new.tables (key.now ∷ [])) }
    {
        match self.recall(key) {
            Some(handle) => Ok(handle),
            None => self.intern_anew(key),
        }
    }

    /// The key of a handle.
    pub fn read(&self, handle: Handle) -> Result<Key, NoMemory>
        ensures { (k : Key) → Knows self.now.tables handle k → IfOk result (λ r. r ≡ k) }
    {
        self.tables.read_within(handle, u32::MAX)
    }
}

impl Interner for PlainInterner {
    ghost use Rattle.std.specs.Prelude.{ℕ, Option};
    ghost use Rattle.intern_api.specs.Knowing.{Knows};
    ghost use Rattle.intern_api.specs.KnowingLaws.{one_handle_known, one_key_known};

    type Fixed = u32;

    ghost fixed = { λ p. p.tables.shards };

    ghost cap = { λ p. p.tables.cap };

    ghost ready = { λ p. Unit {0} };

    ghost holds = { λ p. Knows p.tables };

    fn intern(&mut self, key: &Key) -> Result<Handle, InternFault> {
        PlainInterner::intern(self, key)
    }

    fn read(&mut self, handle: Handle) -> Result<Key, NoMemory> {
        PlainInterner::read(self, handle)
    }

    ghost one_handle = { λ p. one_handle_known p.tables };

    ghost one_key = { λ p. one_key_known p.tables };
}
