//! Functions from trees.

ghost use Rattle.std.specs.Prelude.{◌≡◌, ◌<◌, length, IfOk, IfErr, IfSome};
ghost use Rattle.intern_api.specs.Faults.{IsFaultUnder};
ghost use Rattle.flat_model.specs.Flat.{IsWithin};
ghost use Rattle.flat_model.specs.Growth.{Kept};
ghost use Rattle.flat_model.specs.Renamed.{ShowsSame};
ghost use Rattle.ir_arena.specs.Building.{nodes_of, blank_nodes};

use crate::build::build_op;
use crate::counting::numbers_of;
use crate::fresh::Build;
use crate::func::Func;
use crate::numbering::Numbers;
use crate::pushing::or_fault;
use intern_api::{InternFault, Interner};
use std::alloc::Global;
use tree_model::FuncTree;

/// No nodes yet.
pub fn blank(alloc: Global) -> Build
    ensures { nodes_of result ≡ blank_nodes }
{
    Build {
        alloc,
        ops: Vec::new(alloc),
        blocks: Vec::new(alloc),
        regions: Vec::new(alloc),
        types: Vec::new(alloc),
    }
}

/// The function that was built, where it has each value and each block that has a number.
fn finished(b: Build, n: &Numbers, root: u32) -> Option<Func>
    requires within { IsWithin (length n.now.values.numbers.items) (length n.now.labels.numbers.items) (nodes_of b) }
    requires root { root < length b.ops.items }
    ensures { IfSome result (λ f. f.flat ≡ record (nodes_of b) { root = root }) }
{
    if b.types.len() != n.values.numbers.len() {
        return None;
    }
    if b.blocks.len() != n.labels.numbers.len() {
        return None;
    }
    let Build {
        alloc: _,
        ops,
        blocks,
        regions,
        types,
    } = b;
    Some(Func {
        ops,
        blocks,
        regions,
        types,
        root,
    })
}

impl Func {
    /// The function of a tree. Values get numbers by the places of their definitions, blocks by those of their ends.
    /// Each number of a value and each label is to be defined once, and each one that is used is to be defined;
    /// where this is not so the answer is want of memory.
    pub fn from_tree<I: Interner>(
        alloc: Global,
        tree: &FuncTree,
        i: &mut I,
    ) -> Result<Func, InternFault>
        requires { I.ready i.old }
        ensures ready { I.ready i.new }
        ensures fixed { I.fixed i.new ≡ I.fixed i.old }
        ensures cap { I.cap i.new ≡ I.cap i.old }
        ensures kept { Kept (I.holds i.old) (I.holds i.new) }
        ensures shows { IfOk result (λ f. ShowsSame (I.holds i.new) f.flat tree.now) }
        ensures fault { IfErr result (IsFaultUnder (I.cap i.old)) }
    {
        let n = or_fault(numbers_of(alloc, &tree.op))?;
        let mut b = blank(alloc);
        let root = build_op(&mut b, i, &n, &tree.op)?;
        match finished(b, &n, root) {
            Some(f) => Ok(f),
            None => Err(InternFault::NoMemory),
        }
    }
}
