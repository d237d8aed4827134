//! Types, attributes and what holds them, read by their handles.

ghost use Rattle.std.specs.Prelude.{◌≡◌, ◌<◌, ℕ, List, length, IfOk};
ghost use Rattle.std.specs.List.{AllZip};
ghost use Rattle.key_model.specs.declared.key.Key.TheVariants.{OfType, OfAttr};
ghost use Rattle.tree_model.specs.declared.type_tree.TypeTree.{TypeTree};
ghost use Rattle.tree_model.specs.declared.attr_tree.AttrTree.{AttrTree};
ghost use Rattle.tree_model.specs.declared.op_tree.OpTree.{OpTree, out-OpTree};
ghost use Rattle.tree_model.specs.declared.op_tree.BlockTree.{BlockTree, out-BlockTree};
ghost use Rattle.tree_model.specs.declared.op_tree.RegionTree.{RegionTree};
ghost use Rattle.flat_model.specs.Flat.{AllBelow, op_at, block_at};
ghost use Rattle.flat_model.specs.Growth.{Kept};
ghost use Rattle.flat_model.specs.Shows.{Itself, ValueShows, EntryShows, FrontShows, BlockFrontShows, OpShows, OpsShow, RegionsShow, BlocksShow};

use crate::func::Func;
use flat_model::NamedAttr;
use intern_api::Interner;
use key_model::{Handle, Key};
use sqlite_items::Items;
use std::alloc::{AllocError, Global};
use tree_model::{AttrTree, DictTree, NoMemory, OpTree, RegionList, TypeTree, ValueList};

/// The type of a handle.
#[tactic(auto, using(crate::proofs::ToTreeLaws::to_tree_laws))]
fn type_of_handle<I: Interner>(i: &mut I, handle: Handle) -> Result<TypeTree, NoMemory>
    requires ready { I.ready i.old }
    ensures ready { I.ready i.new }
    ensures fixed { I.fixed i.new ≡ I.fixed i.old }
    ensures cap { I.cap i.new ≡ I.cap i.old }
    ensures kept { Kept (I.holds i.old) (I.holds i.new) }
    ensures tree { (t : TypeTree) → I.holds i.old handle (OfType t) → IfOk result (λ r. r ≡ t) }
{
    match i.read(handle)? {
        Key::OfType(t) => Ok(t),
        Key::OfAttr(_) => Err(AllocError),
    }
}

/// The attribute of a handle.
#[tactic(auto, using(crate::proofs::ToTreeLaws::to_tree_laws))]
fn attr_of_handle<I: Interner>(i: &mut I, handle: Handle) -> Result<AttrTree, NoMemory>
    requires ready { I.ready i.old }
    ensures ready { I.ready i.new }
    ensures fixed { I.fixed i.new ≡ I.fixed i.old }
    ensures cap { I.cap i.new ≡ I.cap i.old }
    ensures kept { Kept (I.holds i.old) (I.holds i.new) }
    ensures tree { (a : AttrTree) → I.holds i.old handle (OfAttr a) → IfOk result (λ r. r ≡ a) }
{
    match i.read(handle)? {
        Key::OfType(_) => Err(AllocError),
        Key::OfAttr(a) => Ok(a),
    }
}

/// A dictionary.
#[tactic(auto, using(crate::proofs::ToTreeLaws::to_tree_laws))]
pub fn dict_tree<I: Interner>(
    i: &mut I,
    alloc: Global,
    entries: &[NamedAttr],
) -> Result<DictTree, NoMemory>
    requires ready { I.ready i.old }
    ensures ready { I.ready i.new }
    ensures fixed { I.fixed i.new ≡ I.fixed i.old }
    ensures cap { I.cap i.new ≡ I.cap i.old }
    ensures kept { Kept (I.holds i.old) (I.holds i.new) }
    ensures tree { (ts : List (List ℕ × AttrTree)) → AllZip (EntryShows (I.holds i.old)) entries.now ts → IfOk result (λ r. r ≡ ts) }
{
    let mut trees = Items::new(alloc);
    for entry in entries {
        let value = attr_of_handle(i, entry.value)?;
        let name = entry.name.copy(alloc)?;
        trees.push((name, value))?;
    }
    Ok(trees)
}

/// Values with their types.
#[tactic(auto, using(crate::proofs::ToTreeLaws::to_tree_laws))]
pub fn value_trees<I: Interner>(
    f: &Func,
    i: &mut I,
    alloc: Global,
    values: &[u32],
) -> Result<ValueList, NoMemory>
    requires ready { I.ready i.old }
    requires known { AllBelow (length f.now.flat.types) values.now }
    ensures ready { I.ready i.new }
    ensures fixed { I.fixed i.new ≡ I.fixed i.old }
    ensures cap { I.cap i.new ≡ I.cap i.old }
    ensures kept { Kept (I.holds i.old) (I.holds i.new) }
    ensures tree { (ts : List (ℕ × TypeTree)) → AllZip (ValueShows (I.holds i.old) Itself f.now.flat) values.now ts → IfOk result (λ r. r ≡ ts) }
{
    let mut trees = Items::new(alloc);
    for value in values {
        let ty = type_of_handle(i, f.type_of(*value))?;
        trees.push((*value, ty))?;
    }
    Ok(trees)
}

/// An operation with these regions.
#[tactic(auto, using(crate::proofs::ToTreeLaws::to_tree_laws))]
pub fn front_tree<I: Interner>(
    f: &Func,
    i: &mut I,
    alloc: Global,
    op: u32,
    regions: RegionList,
) -> Result<OpTree, NoMemory>
    requires ready { I.ready i.old }
    requires known { op < length f.now.flat.ops }
    ensures ready { I.ready i.new }
    ensures fixed { I.fixed i.new ≡ I.fixed i.old }
    ensures cap { I.cap i.new ≡ I.cap i.old }
    ensures kept { Kept (I.holds i.old) (I.holds i.new) }
    ensures tree { (t : OpTree) → FrontShows (I.holds i.old) Itself Itself f.now.flat (op_at f.now.flat op) t → regions ≡ (out-OpTree t).regions → IfOk result (λ r. r ≡ t) }
{
    let results = value_trees(f, i, alloc, f.results(op))?;
    let props = dict_tree(i, alloc, f.props(op))?;
    let attrs = dict_tree(i, alloc, f.attrs(op))?;
    let name = f.name(op).copy(alloc)?;
    let operands = Items::from_slice(alloc, f.operands(op))?;
    let successors = Items::from_slice(alloc, f.successors(op))?;
    Ok(OpTree {
        name,
        results,
        operands,
        props,
        attrs,
        regions,
        successors,
    })
}
