//! Dictionaries with handles.

ghost use Rattle.std.specs.Prelude.{◌≡◌, IfOk, IfErr};
ghost use Rattle.std.specs.List.{AllZip};
ghost use Rattle.intern_api.specs.Faults.{IsFaultUnder};
ghost use Rattle.flat_model.specs.Growth.{Kept};
ghost use Rattle.flat_model.specs.Shows.{EntryShows};
ghost use Rattle.ir_arena.specs.Handed.{NodeShows};
ghost use Rattle.ir_arena.specs.Building.{Names};

use crate::handles::attr_handle;
use crate::numbering::Numbers;
use crate::pushing::or_fault;
use flat_model::{NamedAttr, NamedAttrs, OpNode};
use intern_api::{InternFault, Interner};
use key_model::Handle;
use sqlite_items::Items;
use std::alloc::Global;
use tree_model::{AttrTree, IdList, Name, NoMemory, OpTree};

/// An entry with the handle of its attribute.
fn entry_handle<I: Interner>(
    i: &mut I,
    alloc: Global,
    entry: &(Name, AttrTree),
) -> Result<NamedAttr, InternFault>
    requires { I.ready i.old }
    ensures ready { I.ready i.new }
    ensures fixed { I.fixed i.new ≡ I.fixed i.old }
    ensures cap { I.cap i.new ≡ I.cap i.old }
    ensures kept { Kept (I.holds i.old) (I.holds i.new) }
    ensures shows { IfOk result (λ e. EntryShows (I.holds i.new) e entry.now) }
    ensures fault { IfErr result (IsFaultUnder (I.cap i.old)) }
{
    let value = attr_handle(i, alloc, &entry.1)?;
    let name = or_fault(entry.0.copy(alloc))?;
    Ok(NamedAttr { name, value })
}

/// A dictionary with the handles of its attributes.
#[tactic(auto, using(crate::proofs::BuildLaws::build_laws))]
pub fn dict_handles<I: Interner>(
    i: &mut I,
    alloc: Global,
    dict: &[(Name, AttrTree)],
) -> Result<NamedAttrs, InternFault>
    requires { I.ready i.old }
    ensures ready { I.ready i.new }
    ensures fixed { I.fixed i.new ≡ I.fixed i.old }
    ensures cap { I.cap i.new ≡ I.cap i.old }
    ensures kept { Kept (I.holds i.old) (I.holds i.new) }
    ensures shows { IfOk result (λ es. AllZip (EntryShows (I.holds i.new)) es dict.now) }
    ensures fault { IfErr result (IsFaultUnder (I.cap i.old)) }
{
    let mut entries = Items::new(alloc);
    for entry in dict {
        let entry = entry_handle(i, alloc, entry)?;
        or_fault(entries.push(entry))?;
    }
    Ok(entries)
}
