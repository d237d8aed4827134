//! The tree of a function.

ghost use Rattle.std.specs.Prelude.{◌≡◌, IfOk};
ghost use Rattle.tree_model.specs.declared.op_tree.FuncTree.{FuncTree};
ghost use Rattle.flat_model.specs.Growth.{Kept};
ghost use Rattle.flat_model.specs.Shows.{FuncShows};

use crate::func::Func;
use crate::to_trees::op_tree;
use intern_api::Interner;
use std::alloc::Global;
use tree_model::{FuncTree, NoMemory};

impl Func {
    /// The tree of the function, with the types and attributes of its handles.
    pub fn to_tree<I: Interner>(&self, alloc: Global, i: &mut I) -> Result<FuncTree, NoMemory>
        requires { I.ready i.old }
        ensures ready { I.ready i.new }
        ensures fixed { I.fixed i.new ≡ I.fixed i.old }
        ensures cap { I.cap i.new ≡ I.cap i.old }
        ensures kept { Kept (I.holds i.old) (I.holds i.new) }
        ensures tree { (t : FuncTree) → FuncShows (I.holds i.old) self.now.flat t → IfOk result (λ r. r ≡ t) }
    {
        let op = op_tree(self, i, alloc, self.root(), u32::MAX)?;
        Ok(FuncTree { op })
    }
}
