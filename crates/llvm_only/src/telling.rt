//! The walk through a module.
#![tactic(auto, using(crate::proofs::LlvmLayers::layers))]

ghost use Rattle.std.specs.Prelude.{◌≡◌, codes, map, nat_eq};
ghost use Rattle.std.specs.List.{list_all, starts_with};
ghost use Rattle.plain_tree.specs.Ops.{plain_module, plain_op};
ghost use Rattle.llvm_only.specs.Llvm as model;
ghost use Rattle.llvm_only.specs.Trees.{block_llvm, region_llvm};

use op_catalog::row;
use tree_model::{BlockTree, FuncTree, ModuleTree, Name, OpTree, RegionTree};

fn leads_as_llvm(text: &[u8]) -> bool
    ensures { result ≡ starts_with nat_eq text.now (codes "llvm.") }
{
    text.starts_with(b"llvm.")
}

/// Whether this is the name of an llvm operation.
fn is_llvm(name: &Name) -> bool
    ensures { result ≡ model.is_llvm name.now }
{
    row(name).is_some() && leads_as_llvm(name.as_slice())
}

#[cycle(op_llvm)]
fn op_llvm(op: &OpTree) -> bool
    ensures { result ≡ model.op_llvm (plain_op op.now) }
{
    is_llvm(&op.name) && regions_llvm(op.regions.as_slice())
}

#[cycle(op_llvm)]
fn regions_llvm(regions: &[RegionTree]) -> bool
    ensures { result ≡ list_all region_llvm regions.now }
{
    for region in regions {
        if !blocks_llvm(region.blocks.as_slice()) {
            return false;
        }
    }
    true
}

#[cycle(op_llvm)]
fn blocks_llvm(blocks: &[BlockTree]) -> bool
    ensures { result ≡ list_all block_llvm blocks.now }
{
    for block in blocks {
        if !ops_llvm(block.ops.as_slice()) {
            return false;
        }
    }
    true
}

#[cycle(op_llvm)]
fn ops_llvm(ops: &[OpTree]) -> bool
    ensures { result ≡ list_all (λ o. model.op_llvm (plain_op o)) ops.now }
{
    for op in ops {
        if !op_llvm(op) {
            return false;
        }
    }
    true
}

/// Whether all operations of these functions are llvm ones.
fn funcs_llvm(funcs: &[FuncTree]) -> bool
    ensures { result ≡ list_all (λ f. model.op_llvm (plain_op f.op)) funcs.now }
{
    for func in funcs {
        if !op_llvm(&func.op) {
            return false;
        }
    }
    true
}

/// Whether all operations of a module, at each depth, are llvm ones: those of the table whose names begin with `llvm.`. A module without
/// functions is such a module.
pub fn is_all_llvm(tree: &ModuleTree) -> bool
    ensures { result ≡ model.is_all_llvm (plain_module tree.now) }
{
    funcs_llvm(tree.funcs.as_slice())
}
