//! Keys and entries as keys of maps and sets.

use crate::digest::digest_of;
use crate::entry::Entry;
use crate::entry_same::same_entry;
use crate::key::{Key, hash_of, same_key};
use std::hash::{Hash, Hasher};

impl PartialEq for Key {
    ghost use Rattle.std.specs.Cmp.{partial_equiv_from_equiv, decided};
    ghost use Rattle.key_model.specs.Equal.{alike_key, alike_key-Decides};

    ghost eq = { alike_key };

    ghost laws = { partial_equiv_from_equiv (decided alike_key alike_key-Decides) };

    fn eq(&self, other: &Key) -> bool {
        same_key(self, other)
    }
}

impl Eq for Key {
    ghost use Rattle.std.specs.Cmp.{decided};
    ghost use Rattle.key_model.specs.Equal.{alike_key, alike_key-Decides};

    ghost laws = { decided alike_key alike_key-Decides };
}

impl Hash for Key {
    ghost use Rattle.key_model.specs.Equal.{key_writes, key_respects};

    ghost hash_input = { key_writes };

    ghost respects_eq = { key_respects };

    fn hash<H: Hasher>(&self, state: &mut H) {
        hash_of(self).hash(state);
    }
}

impl PartialEq for Entry {
    ghost use Rattle.std.specs.Cmp.{partial_equiv_from_equiv, decided};
    ghost use Rattle.key_model.specs.Equal.{alike_entry, alike_entry-Decides};

    ghost eq = { alike_entry };

    ghost laws = { partial_equiv_from_equiv (decided alike_entry alike_entry-Decides) };

    fn eq(&self, other: &Entry) -> bool {
        same_entry(self, other)
    }
}

impl Eq for Entry {
    ghost use Rattle.std.specs.Cmp.{decided};
    ghost use Rattle.key_model.specs.Equal.{alike_entry, alike_entry-Decides};

    ghost laws = { decided alike_entry alike_entry-Decides };
}

impl Hash for Entry {
    ghost use Rattle.key_model.specs.Equal.{entry_writes, entry_respects};

    ghost hash_input = { entry_writes };

    ghost respects_eq = { entry_respects };

    fn hash<H: Hasher>(&self, state: &mut H) {
        digest_of(self).hash(state);
    }
}
