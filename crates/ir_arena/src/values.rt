//! Values, where they are defined.

ghost use Rattle.std.specs.Prelude.{◌≡◌, IfOk, IfErr};
ghost use Rattle.std.specs.List.{AllZip};
ghost use Rattle.intern_api.specs.Faults.{IsFaultUnder};
ghost use Rattle.flat_model.specs.Growth.{Kept};
ghost use Rattle.flat_model.specs.Shows.{ValueShows};
ghost use Rattle.ir_arena.specs.Building.{nodes_of, BuiltBy, Names};

use crate::fresh::Build;
use crate::handles::type_handle;
use crate::numbering::Numbers;
use crate::pushing::{or_fault, push_value, pushed};
use intern_api::{InternFault, Interner};
use std::alloc::Global;
use tree_model::TypeTree;

/// A value with its type. Where its place isn't the next one the answer is want of memory.
#[tactic(auto, using(crate::proofs::BuildLaws::build_laws))]
fn build_value<I: Interner>(
    b: &mut Build,
    i: &mut I,
    n: &Numbers,
    value: &(u32, TypeTree),
) -> Result<u32, InternFault>
    requires { I.ready i.old }
    ensures ready { I.ready i.new }
    ensures fixed { I.fixed i.new ≡ I.fixed i.old }
    ensures cap { I.cap i.new ≡ I.cap i.old }
    ensures kept { Kept (I.holds i.old) (I.holds i.new) }
    ensures built { BuiltBy n.now b.old b.new }
    ensures shows { IfOk result (λ place. ValueShows (I.holds i.new) (Names n.now.values) (nodes_of b.new) place value.now) }
    ensures fault { IfErr result (IsFaultUnder (I.cap i.old)) }
{
    let ty = type_handle(i, b.alloc, &value.1)?;
    let place = or_fault(push_value(b, ty))?;
    if n.values.place(value.0) == Some(place) {
        Ok(place)
    } else {
        Err(InternFault::NoMemory)
    }
}

/// Values in order.
#[tactic(auto, using(crate::proofs::BuildLaws::build_laws))]
pub fn build_values<I: Interner>(
    b: &mut Build,
    i: &mut I,
    n: &Numbers,
    values: &[(u32, TypeTree)],
) -> Result<Vec<u32>, InternFault>
    requires { I.ready i.old }
    ensures ready { I.ready i.new }
    ensures fixed { I.fixed i.new ≡ I.fixed i.old }
    ensures cap { I.cap i.new ≡ I.cap i.old }
    ensures kept { Kept (I.holds i.old) (I.holds i.new) }
    ensures built { BuiltBy n.now b.old b.new }
    ensures shows { IfOk result (λ places. AllZip (ValueShows (I.holds i.new) (Names n.now.values) (nodes_of b.new)) places.items values.now) }
    ensures fault { IfErr result (IsFaultUnder (I.cap i.old)) }
{
    let mut places = Vec::new(b.alloc);
    for value in values {
        let place = build_value(b, i, n, value)?;
        or_fault(pushed(&mut places, place))?;
    }
    Ok(places)
}
