//! What gives keys their handles.

ghost use Rattle.std.specs.Prelude.{◌≡◌, ◌↔◌, IfOk, IsTrue};

use crate::fault::InternFault;
use key_model::{Handle, Key};
use tree_model::NoMemory;

/// What gives each key a handle and reads a handle's key back. Of handles that it knows two are equal exactly
/// where their keys are, and a handle keeps its key.
pub trait Interner {
    ghost use Rattle.std.specs.Prelude.{◌≡◌, ℕ, Option, IfOk, IfErr};
    ghost use Rattle.key_model.specs.declared.handle.Handle.{Handle};
    ghost use Rattle.key_model.specs.declared.key.Key.{Key};
    ghost use Rattle.intern_api.specs.Faults.{IsFaultUnder};

    /// What no call changes, as the number of shards.
    type Fixed;

    // What no call changes.
    ghost fixed: { Self → Self.Fixed };

    // How many keys a shard may hold, where it has such a bound. No call changes it.
    ghost cap: { Self → Option ℕ };

    // What a call asks of the interner.
    ghost ready: { Self → Type 0 };

    // The handle is known, and has the key.
    ghost holds: { Self → Handle → Key → Type 0 };

    /// The handle of a key. The key and its parts are added where they are not known.
    fn intern(&mut self, key: &Key) -> Result<Handle, InternFault>
        requires { ready self.old }
        ensures ready { ready self.new }
        ensures fixed { fixed self.new ≡ fixed self.old }
        ensures cap { cap self.new ≡ cap self.old }
        ensures kept { (h : Handle) (k : Key) → holds self.old h k → holds self.new h k }
        ensures held { IfOk result (λ h. holds self.new h key.now) }
        ensures fault { IfErr result (IsFaultUnder (cap self.old)) };

    /// The key of a handle.
    fn read(&mut self, handle: Handle) -> Result<Key, NoMemory>
        requires { ready self.old }
        ensures ready { ready self.new }
        ensures fixed { fixed self.new ≡ fixed self.old }
        ensures cap { cap self.new ≡ cap self.old }
        ensures kept { (h : Handle) (k : Key) → holds self.old h k → holds self.new h k }
        ensures key { (k : Key) → holds self.old handle k → IfOk result (λ r. r ≡ k) };

    // A key has one handle.
    ghost one_handle: { (s : Self) (h g : Handle) (k : Key) → holds s h k → holds s g k → h ≡ g };

    // A handle has one key.
    ghost one_key: { (s : Self) (h : Handle) (k l : Key) → holds s h k → holds s h l → k ≡ l };
}
