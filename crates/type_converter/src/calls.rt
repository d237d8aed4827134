//! The calls of a converter.

ghost use Rattle.std.specs.Prelude.{◌≡◌, ℕ, Some, None, IfOk, IfErr, [], option_copied};
ghost use Rattle.std.specs.HashMap.{get};
ghost use Rattle.tree_model.specs.declared.type_tree.TypeTree.{TypeTree};
ghost use Rattle.key_model.specs.declared.handle.Handle.{Handle};
ghost use Rattle.key_model.specs.declared.key.Key.{Key};
ghost use Rattle.key_model.specs.declared.key.Key.TheVariants.{OfType};
ghost use Rattle.intern_api.specs.declared.fault.InternFault.TheVariants.{NoMemory};
ghost use Rattle.type_converter.specs.Keys.{key_or_none, key_row};
ghost use Rattle.intern_api.specs.Faults.{IsFaultUnder};
ghost use Rattle.type_converter.specs.Pairs.{ArePairs, HasKey, IsConverted, IsFound, IsKnown, Keeps, handle_equal};

use crate::converter::TypeConverter;
use crate::keys::{converted_key, read_key};
use intern_api::{InternFault, Interner};
use key_model::{Handle, Key};
use std::alloc::Global;
use std::collections::HashMap;

fn intern_some<I: Interner>(i: &mut I, key: &Key) -> Result<Option<Handle>, InternFault>
    requires { I.ready i.old }
    ensures ready { I.ready i.new }
    ensures fixed { I.fixed i.new ≡ I.fixed i.old }
    ensures cap { I.cap i.new ≡ I.cap i.old }
    ensures kept { (h : Handle) (k : Key) → I.holds i.old h k → I.holds i.new h k }
    ensures held { IfOk result (HasKey (I.holds i.new) key.now) }
    ensures fault { IfErr result (IsFaultUnder (I.cap i.old)) }
{
    match i.intern(key) {
        Ok(handle) => Ok(Some(handle)),
        Err(fault) => Err(fault),
    }
}

impl TypeConverter {
    /// A converter that keeps no pair. An index has 32 or 64 bits.
    pub fn new(alloc: Global, bits: u32) -> TypeConverter
        ensures bits { result.bits ≡ bits }
        ensures pairs { result.pairs.entries ≡ [] }
    {
        TypeConverter {
            alloc,
            bits,
            pairs: HashMap::new(alloc),
        }
    }

    fn kept(&self, ty: Handle) -> Option<Handle>
        ensures { result ≡ get handle_equal self.now.pairs ty }
    {
        self.pairs.get(&ty).copied()
    }

    fn keep(&mut self, ty: Handle, handle: Handle)
        ensures keeps { Keeps self.old.pairs self.new.pairs ty handle }
        ensures bits { self.new.bits ≡ self.old.bits }
    {
        let _ = self.pairs.insert(ty, handle);
    }

    // The key of the new type.
    fn new_key<I: Interner>(&self, ty: Handle, i: &mut I) -> Result<Option<Key>, InternFault>
        requires { I.ready i.old }
        ensures ready { I.ready i.new }
        ensures fixed { I.fixed i.new ≡ I.fixed i.old }
        ensures cap { I.cap i.new ≡ I.cap i.old }
        ensures kept { (h : Handle) (k : Key) → I.holds i.old h k → I.holds i.new h k }
        ensures row { (k : Key) → I.holds i.old ty k → IfOk result (λ o. o ≡ key_or_none (key_row self.now.bits k)) }
        ensures fault { IfErr result (λ e. e ≡ NoMemory) }
    {
        match read_key(i, ty) {
            Ok(key) => converted_key(self.alloc, self.bits, &key),
            Err(fault) => Err(fault),
        }
    }

    // The handle of the new type, found without a kept pair.
    fn find<I: Interner>(&self, ty: Handle, i: &mut I) -> Result<Option<Handle>, InternFault>
        requires { I.ready i.old }
        ensures ready { I.ready i.new }
        ensures fixed { I.fixed i.new ≡ I.fixed i.old }
        ensures cap { I.cap i.new ≡ I.cap i.old }
        ensures kept { (h : Handle) (k : Key) → I.holds i.old h k → I.holds i.new h k }
        ensures found { (k : Key) → I.holds i.old ty k → IfOk result (IsFound (I.holds i.new) (key_row self.now.bits k)) }
        ensures fault { IfErr result (IsFaultUnder (I.cap i.old)) }
    {
        match self.new_key(ty, i) {
            Ok(Some(new)) => intern_some(i, &new),
            Ok(None) => Ok(None),
            Err(fault) => Err(fault),
        }
    }

    /// The handle of the type to which a type converts, none exactly where it has no row.
    pub fn convert<I: Interner>(
        &mut self,
        ty: Handle,
        i: &mut I,
    ) -> Result<Option<Handle>, InternFault>
        requires ready { I.ready i.old }
        requires known { IsKnown (I.holds i.old) ty }
        requires pairs { ArePairs (I.holds i.old) self.old.bits self.old.pairs }
        ensures ready { I.ready i.new }
        ensures fixed { I.fixed i.new ≡ I.fixed i.old }
        ensures cap { I.cap i.new ≡ I.cap i.old }
        ensures kept { (h : Handle) (k : Key) → I.holds i.old h k → I.holds i.new h k }
        ensures pairs { ArePairs (I.holds i.new) self.new.bits self.new.pairs }
        ensures bits { self.new.bits ≡ self.old.bits }
        ensures converted { IfOk result (λ o. (t : TypeTree) → I.holds i.old ty (OfType t) → IsConverted (I.holds i.new) self.old.bits t o) }
        ensures fault { IfErr result (IsFaultUnder (I.cap i.old)) }
    {
        if let Some(handle) = self.kept(ty) {
            return Ok(Some(handle));
        }
        match self.find(ty, i)? {
            Some(handle) => {
                self.keep(ty, handle);
                Ok(Some(handle))
            }
            None => Ok(None),
        }
    }
}
