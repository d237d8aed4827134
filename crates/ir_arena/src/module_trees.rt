//! Modules from trees, and their trees.

ghost use Rattle.std.specs.Prelude.{◌≡◌, List, IfOk, IfErr};
ghost use Rattle.std.specs.List.{AllZip};
ghost use Rattle.intern_api.specs.Faults.{IsFaultUnder};
ghost use Rattle.tree_model.specs.declared.op_tree.FuncTree.{FuncTree};
ghost use Rattle.tree_model.specs.declared.op_tree.ModuleTree.{ModuleTree};
ghost use Rattle.tree_shape.specs.Same.{Same};
ghost use Rattle.flat_model.specs.Growth.{Kept};
ghost use Rattle.ir_arena.specs.Modules.{ArenaShows, ArenaShowsSame, ModuleShows, ModuleShowsSame};

use crate::dicts::dict_handles;
use crate::fronts::dict_tree;
use crate::func::Func;
use crate::module_cell::Module;
use crate::pushing::or_fault;
use intern_api::{InternFault, Interner};
use sqlite_items::Items;
use std::alloc::Global;
use tree_model::{FuncList, FuncTree, ModuleTree, NoMemory};

/// Functions from their trees.
#[tactic(auto, using(crate::proofs::ToTreeLaws::to_tree_laws))]
fn build_funcs<I: Interner>(
    alloc: Global,
    trees: &[FuncTree],
    i: &mut I,
) -> Result<Items<Func>, InternFault>
    requires { I.ready i.old }
    ensures ready { I.ready i.new }
    ensures fixed { I.fixed i.new ≡ I.fixed i.old }
    ensures cap { I.cap i.new ≡ I.cap i.old }
    ensures kept { Kept (I.holds i.old) (I.holds i.new) }
    ensures shows { IfOk result (λ fs. AllZip (ArenaShowsSame (I.holds i.new)) fs trees.now) }
    ensures fault { IfErr result (IsFaultUnder (I.cap i.old)) }
{
    let mut funcs = Items::new(alloc);
    for tree in trees {
        let func = Func::from_tree(alloc, tree, i)?;
        or_fault(funcs.push(func))?;
    }
    Ok(funcs)
}

/// The trees of functions.
#[tactic(auto, using(crate::proofs::ToTreeLaws::to_tree_laws))]
fn func_trees<I: Interner>(alloc: Global, funcs: &[Func], i: &mut I) -> Result<FuncList, NoMemory>
    requires { I.ready i.old }
    ensures ready { I.ready i.new }
    ensures fixed { I.fixed i.new ≡ I.fixed i.old }
    ensures cap { I.cap i.new ≡ I.cap i.old }
    ensures kept { Kept (I.holds i.old) (I.holds i.new) }
    ensures trees { (ts : List FuncTree) → AllZip (ArenaShows (I.holds i.old)) funcs.now ts → IfOk result (λ r. r ≡ ts) }
{
    let mut trees = Items::new(alloc);
    for func in funcs {
        let tree = func.to_tree(alloc, i)?;
        trees.push(tree)?;
    }
    Ok(trees)
}

impl Module {
    /// The module of a tree. Of the numbers in each function the same is asked as for a function by itself.
    #[tactic(auto, using(crate::proofs::ToTreeLaws::to_tree_laws))]
    pub fn from_tree<I: Interner>(
        alloc: Global,
        tree: &ModuleTree,
        i: &mut I,
    ) -> Result<Module, InternFault>
        requires { I.ready i.old }
        ensures ready { I.ready i.new }
        ensures fixed { I.fixed i.new ≡ I.fixed i.old }
        ensures cap { I.cap i.new ≡ I.cap i.old }
        ensures kept { Kept (I.holds i.old) (I.holds i.new) }
        ensures shows { IfOk result (λ m. ModuleShowsSame (I.holds i.new) m tree.now) }
        ensures fault { IfErr result (IsFaultUnder (I.cap i.old)) }
    {
        let props = dict_handles(i, alloc, tree.props.as_slice())?;
        let attrs = dict_handles(i, alloc, tree.attrs.as_slice())?;
        let funcs = build_funcs(alloc, tree.funcs.as_slice(), i)?;
        Ok(Module {
            props,
            attrs,
            funcs,
        })
    }

    /// The tree of the module, with the types and attributes of its handles.
    #[tactic(auto, using(crate::proofs::ToTreeLaws::to_tree_laws))]
    pub fn to_tree<I: Interner>(&self, alloc: Global, i: &mut I) -> Result<ModuleTree, NoMemory>
        requires { I.ready i.old }
        ensures ready { I.ready i.new }
        ensures fixed { I.fixed i.new ≡ I.fixed i.old }
        ensures cap { I.cap i.new ≡ I.cap i.old }
        ensures kept { Kept (I.holds i.old) (I.holds i.new) }
        ensures tree { (t : ModuleTree) → ModuleShows (I.holds i.old) self.now t → IfOk result (λ r. r ≡ t) }
    {
        let props = dict_tree(i, alloc, self.props.as_slice())?;
        let attrs = dict_tree(i, alloc, self.attrs.as_slice())?;
        let funcs = func_trees(alloc, self.funcs.as_slice(), i)?;
        Ok(ModuleTree {
            props,
            attrs,
            funcs,
        })
    }
}

/// The tree of the function that was made of a tree, which is the same but for its numbers.
pub fn through_arena<I: Interner>(
    alloc: Global,
    tree: &FuncTree,
    i: &mut I,
) -> Result<FuncTree, InternFault>
    requires { I.ready i.old }
    ensures { IfOk result (λ t. Same tree.now t) }
{
    let func = Func::from_tree(alloc, tree, i)?;
    let tree = or_fault(func.to_tree(alloc, i))?;
    Ok(tree)
}
