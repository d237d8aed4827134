//! Keys that are read and converted.

ghost use Rattle.std.specs.Prelude.{◌≡◌, IfOk, IfErr};
ghost use Rattle.key_model.specs.declared.handle.Handle.{Handle};
ghost use Rattle.key_model.specs.declared.key.Key.{Key};
ghost use Rattle.intern_api.specs.declared.fault.InternFault.TheVariants.{NoMemory};
ghost use Rattle.type_converter.specs.Keys.{key_or_none, key_row};

use intern_api::{InternFault, Interner};
use key_model::{Handle, Key};
use std::alloc::Global;
use type_table::converted_type;

/// The key of a handle.
pub fn read_key<I: Interner>(i: &mut I, handle: Handle) -> Result<Key, InternFault>
    requires { I.ready i.old }
    ensures ready { I.ready i.new }
    ensures fixed { I.fixed i.new ≡ I.fixed i.old }
    ensures cap { I.cap i.new ≡ I.cap i.old }
    ensures kept { (h : Handle) (k : Key) → I.holds i.old h k → I.holds i.new h k }
    ensures key { (k : Key) → I.holds i.old handle k → IfOk result (λ r. r ≡ k) }
    ensures fault { IfErr result (λ e. e ≡ NoMemory) }
{
    match i.read(handle) {
        Ok(key) => Ok(key),
        Err(_) => Err(InternFault::NoMemory),
    }
}

/// The key of the type that a key's type becomes, none where it has no row.
pub fn converted_key(alloc: Global, bits: u32, key: &Key) -> Result<Option<Key>, InternFault>
    ensures row { IfOk result (λ o. o ≡ key_or_none (key_row bits key.now)) }
    ensures fault { IfErr result (λ e. e ≡ NoMemory) }
{
    match key {
        Key::OfType(t) => match converted_type(alloc, bits, t) {
            Ok(Some(u)) => Ok(Some(Key::OfType(u))),
            Ok(None) => Ok(None),
            Err(_) => Err(InternFault::NoMemory),
        },
        Key::OfAttr(_) => Ok(None),
    }
}
