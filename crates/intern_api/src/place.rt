//! Puts an entry into the table of its shard.

ghost use Rattle.std.specs.Prelude.{◌≡◌, ◌%◌, IfOk, IfErr, OnErr};

use crate::fault::InternFault;
use crate::tables::Tables;
use key_model::{Entry, Handle};

impl Tables {
    ghost use Rattle.intern_api.specs.Interning.{IsPlaced, IsNoRoom, IsUnchanged, IsEntryOf};

    /// The handle of an entry, which goes last in the table of its shard where it isn't there.
    pub fn place(&mut self, hash: u32, entry: Entry) -> Result<Handle, InternFault>
        requires { IsEntryOf self.old entry (hash % self.old.shards) }
        ensures shards { self.new.shards ≡ self.old.shards }
        ensures cap { self.new.cap ≡ self.old.cap }
        ensures ok { IfOk result (IsPlaced self.old.list.items self.new.list.items entry (hash % self.old.shards)) }
        ensures same { OnErr result (IsUnchanged self.old.list.items self.new.list.items) }
        ensures err { IfErr result (IsNoRoom self.new.cap self.new.list.items entry (hash % self.old.shards)) }
    {
        let shard = (hash % self.shards) as usize;
        self.list[shard].put(entry)
    }
}
