//! What any interner's handles tell of keys, by the laws of the trait alone.

ghost use Rattle.std.specs.Prelude.{◌≡◌, ◌↔◌, IfOk, IsTrue};
ghost use Rattle.key_model.specs.declared.handle.Handle.{Handle};
ghost use Rattle.key_model.specs.declared.key.Key.{Key};

use crate::fault::InternFault;
use crate::interner::Interner;
use key_model::Key;

/// Whether two keys are one, told by their handles.
pub fn same_by_handles<I: Interner>(interner: &mut I, a: &Key, b: &Key) -> Result<bool, InternFault>
    requires { I.ready interner.old }
    ensures ready { I.ready interner.new }
    ensures fixed { I.fixed interner.new ≡ I.fixed interner.old }
    ensures cap { I.cap interner.new ≡ I.cap interner.old }
    ensures kept { (h : Handle) (k : Key) → I.holds interner.old h k → I.holds interner.new h k }
    ensures same { IfOk result (λ r. IsTrue r ↔ (a.now ≡ b.now)) }
{
    let first = interner.intern(a)?;
    let second = interner.intern(b)?;
    Ok(first == second)
}

/// The key that is read back by the handle of a key, which is the same one.
pub fn through_handle<I: Interner>(interner: &mut I, key: &Key) -> Result<Key, InternFault>
    requires { I.ready interner.old }
    ensures ready { I.ready interner.new }
    ensures kept { (h : Handle) (k : Key) → I.holds interner.old h k → I.holds interner.new h k }
    ensures key { IfOk result (λ k. k ≡ key.now) }
{
    let handle = interner.intern(key)?;
    match interner.read(handle) {
        Ok(key) => Ok(key),
        Err(_) => Err(InternFault::NoMemory),
    }
}
