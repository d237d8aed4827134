//! Handles: where the entry of a key stands.

ghost use Rattle.std.specs.Prelude.{◌≡◌, ◌<◌, min};

/// The place of a key's entry in the table of its shard. In one interner two handles are equal exactly where
/// their keys are.
#[derive(Clone, Copy, PartialEq, Eq, Hash, Debug)]
pub struct Handle {
    shard: u32,
    place: u32,
}

/// The last place, which no table uses.
pub const LAST_PLACE: u64 = 4294967295;

impl Handle {
    /// The handle of a place in a shard's table. A place behind the last one that a handle can name becomes
    /// that one, and no entry stands there.
    pub fn at(shard: u32, place: u64) -> Handle
        requires { shard < 16 }
        ensures shard { result.shard ≡ shard }
        ensures place { result.place ≡ min place LAST_PLACE }
    {
        Handle {
            shard,
            place: place.min(LAST_PLACE) as u32,
        }
    }

    /// The shard.
    pub fn shard(self) -> u32
        ensures { result ≡ self.shard }
    {
        self.shard
    }

    /// The place in the shard's table.
    pub fn place(self) -> u64
        ensures { result ≡ self.place }
    {
        u64::from(self.place)
    }
}
