//! The edit of the operation that holds all others.

ghost use Rattle.std.specs.Prelude.{◌≡◌, ℕ, ◌<◌, length, IfOk, OnOk, OnErr};
ghost use Rattle.flat_model.specs.Flat.{op_at};
ghost use Rattle.edit_model.specs.Writes.{with_node};
ghost use Rattle.edit_effects.specs.HandleTree.{tree};
ghost use Rattle.edit_effects.specs.Effects.{op_edited, front_renamed};
ghost use Rattle.undo_rewriter.specs.Journal.{IsBack, KeepsMarks};

use crate::rewriter::Rewriter;
use flat_model::{NamedAttr, NamedAttrs, OpId, OpNode};
use ir_arena::Func;
use sqlite_items::Items;
use std::alloc::Global;
use tree_model::{Name, NoMemory};

/// A copy of named attributes.
fn copied_entries(alloc: Global, entries: &[NamedAttr]) -> Result<NamedAttrs, NoMemory>
    ensures { IfOk result (λ copy. copy ≡ entries.now) }
{
    let mut copy = Items::new(alloc);
    for entry in entries {
        let name = entry.name.copy(alloc)?;
        let value = entry.value;
        copy.push(NamedAttr { name, value })?;
    }
    Ok(copy)
}

/// The node of an operation with another name and other properties.
fn renamed_node(
    alloc: Global,
    func: &Func,
    op: OpId,
    name: Name,
    props: NamedAttrs,
) -> Result<OpNode, NoMemory>
    requires { op < length func.now.flat.ops }
    ensures { IfOk result (λ node. node ≡ record (op_at func.now.flat op) { name = name; props = props }) }
{
    let attrs = copied_entries(alloc, func.attrs(op))?;
    let results = Items::from_slice(alloc, func.results(op))?;
    let operands = Items::from_slice(alloc, func.operands(op))?;
    let regions = Items::from_slice(alloc, func.regions(op))?;
    let successors = Items::from_slice(alloc, func.successors(op))?;
    Ok(OpNode {
        name,
        results,
        operands,
        props,
        attrs,
        regions,
        successors,
    })
}

#[tactic(auto, using(crate::proofs::WriterLaws::edit_laws))]
impl Rewriter {
    /// Gives the operation that holds all others another name and other properties.
    pub fn set_root(&mut self, name: Name, props: NamedAttrs) -> Result<(), NoMemory>
        ensures nodes { OnOk result (self.new.now ≡ with_node self.old.now self.old.now.root (record (op_at self.old.now self.old.now.root) { name = name; props = props })) }
        ensures tree { OnOk result ((n i : ℕ) → i < length self.old.now.ops → op_edited (front_renamed self.old.now.root name props) (tree n self.old.now i) ≡ tree n self.new.now i) }
        ensures kept { KeepsMarks self.old self.new }
        ensures err { OnErr result (IsBack self.old self.new) }
    {
        let start = self.checkpoint();
        match self.set_root_steps(name, props) {
            Ok(()) => Ok(()),
            Err(e) => {
                self.rollback(start);
                Err(e)
            }
        }
    }

    fn set_root_steps(&mut self, name: Name, props: NamedAttrs) -> Result<(), NoMemory>
        ensures nodes { OnOk result (self.new.now ≡ with_node self.old.now self.old.now.root (record (op_at self.old.now self.old.now.root) { name = name; props = props })) }
        ensures kept { KeepsMarks self.old self.new }
    {
        self.begin()?;
        self.func.closed();
        let root = self.func.root();
        let node = renamed_node(self.alloc, &self.func, root, name, props)?;
        self.put_node(root, node)?;
        Ok(())
    }
}
