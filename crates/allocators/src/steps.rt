//! The step on the module.

ghost use Rattle.std.specs.Prelude.{◌≡◌, ◌+◌, ◌++◌, ◌≤◌, IfOk, OnErr, OnOk, length, map, take};
ghost use Rattle.plain_tree.specs.Ops.{plain_func};
ghost use Rattle.pattern_model.specs.ModuleStep.{allocators_declared, module_step as step_of};

use crate::declarations::missing;
use pipeline_text::PassName;
use std::alloc::{AllocError, Global};
use tree_model::{FuncList, ModuleTree, NoMemory};

// The first functions alone.
fn cut(funcs: &mut FuncList, count: usize)
    ensures { funcs.new ≡ take count funcs.old }
{
    'each: while funcs.len() > count {
        let _ = funcs.pop();
    }
}

// All of them, or none.
fn put_all(funcs: &mut FuncList, mut more: FuncList) -> Result<(), NoMemory>
    ensures ok { OnOk result (funcs.new ≡ funcs.old ++ more) }
    ensures err { OnErr result (funcs.new ≡ funcs.old) }
{
    let count = funcs.len();
    let turns = more.len();
    'each: for _turn in 0..turns {
        if let Err(fault) = funcs.push(more.remove(0)) {
            cut(funcs, count);
            return Err(fault);
        }
    }
    Ok(())
}

/// Puts a declaration of each of `malloc`, `free` and `aligned_alloc`, in this order, behind the functions, where an `llvm.call`
/// of the module names it and no function has that name. Answers how many were put. A refusal leaves the module as it was.
pub fn declare_allocators(alloc: Global, tree: &mut ModuleTree) -> Result<u32, NoMemory>
    ensures funcs { OnOk result (map plain_func tree.new.funcs ≡ allocators_declared (map plain_func tree.old.funcs)) }
    ensures front { take (length tree.old.funcs) tree.new.funcs ≡ tree.old.funcs }
    ensures count { IfOk result (λ n. length tree.new.funcs ≡ length tree.old.funcs + n) }
    ensures props { tree.new.props ≡ tree.old.props }
    ensures attrs { tree.new.attrs ≡ tree.old.attrs }
    ensures kept { OnErr result (tree.new ≡ tree.old) }
{
    let all = missing(alloc, tree.funcs.as_slice())?;
    let Ok(count) = u32::try_from(all.len()) else {
        return Err(AllocError);
    };
    put_all(&mut tree.funcs, all)?;
    Ok(count)
}

/// The step of a pass on the module: `finalize-memref-to-llvm` and `full-convert-to-llvm` declare the allocation functions, the
/// others have none. Answers how many functions were put. A refusal leaves the module as it was.
pub fn module_step(alloc: Global, pass: PassName, tree: &mut ModuleTree) -> Result<u32, NoMemory>
    ensures funcs { OnOk result (map plain_func tree.new.funcs ≡ step_of pass (map plain_func tree.old.funcs)) }
    ensures front { take (length tree.old.funcs) tree.new.funcs ≡ tree.old.funcs }
    ensures count { IfOk result (λ n. length tree.new.funcs ≡ length tree.old.funcs + n) }
    ensures props { tree.new.props ≡ tree.old.props }
    ensures attrs { tree.new.attrs ≡ tree.old.attrs }
    ensures kept { OnErr result (tree.new ≡ tree.old) }
{
    match pass {
        PassName::FinalizeMemrefToLlvm | PassName::FullConvertToLlvm => {
            declare_allocators(alloc, tree)
        }
        PassName::ConvertScfToCf
        | PassName::ArithExpand
        | PassName::ConvertArithToLlvm
        | PassName::ConvertCfToLlvm
        | PassName::ConvertFuncToLlvm
        | PassName::ReconcileUnrealizedCasts => Ok(0),
    }
}
