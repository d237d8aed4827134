//! Handles of types and attributes, by any interner.

ghost use Rattle.std.specs.Prelude.{◌≡◌, IfOk, IfErr, length};
ghost use Rattle.std.specs.List.{AllZip};
ghost use Rattle.key_model.specs.declared.key.Key.TheVariants.{OfType, OfAttr};
ghost use Rattle.intern_api.specs.Faults.{IsFaultUnder};
ghost use Rattle.flat_model.specs.Growth.{Kept};
ghost use Rattle.flat_model.specs.Shows.{EntryShows};

use flat_model::{NamedAttr, NamedAttrs};
use intern_api::{InternFault, Interner};
use key_model::{Handle, Key};
use sqlite_items::Items;
use std::alloc::Global;
use tree_model::{AttrTree, Name, TypeTree, copy_attr, copy_type};

/// The handle of a type.
pub fn type_handle<I: Interner>(
    i: &mut I,
    alloc: Global,
    t: &TypeTree,
) -> Result<Handle, InternFault>
    requires { I.ready i.old }
    ensures ready { I.ready i.new }
    ensures fixed { I.fixed i.new ≡ I.fixed i.old }
    ensures cap { I.cap i.new ≡ I.cap i.old }
    ensures kept { Kept (I.holds i.old) (I.holds i.new) }
    ensures held { IfOk result (λ h. I.holds i.new h (OfType t.now)) }
    ensures fault { IfErr result (IsFaultUnder (I.cap i.old)) }
{
    match copy_type(alloc, t) {
        Ok(t) => i.intern(&Key::OfType(t)),
        Err(_) => Err(InternFault::NoMemory),
    }
}

/// The handle of an attribute.
pub fn attr_handle<I: Interner>(
    i: &mut I,
    alloc: Global,
    a: &AttrTree,
) -> Result<Handle, InternFault>
    requires { I.ready i.old }
    ensures ready { I.ready i.new }
    ensures fixed { I.fixed i.new ≡ I.fixed i.old }
    ensures cap { I.cap i.new ≡ I.cap i.old }
    ensures kept { Kept (I.holds i.old) (I.holds i.new) }
    ensures held { IfOk result (λ h. I.holds i.new h (OfAttr a.now)) }
    ensures fault { IfErr result (IsFaultUnder (I.cap i.old)) }
{
    match copy_attr(alloc, a) {
        Ok(a) => i.intern(&Key::OfAttr(a)),
        Err(_) => Err(InternFault::NoMemory),
    }
}
