//! Modules through the arena.

use crate::fixtures::{nested, two_blocks};
use intern_api::{InternFault, PlainInterner};
use ir_arena::Module;
use std::alloc::Global;
use std::test::Fail;
use tree_model::{AttrTree, ModuleTree, NoMemory, entry, one};
use tree_shape::same_shape;

/// A module of two functions.
fn two_funcs(alloc: Global) -> Result<ModuleTree, NoMemory> {
    let mut funcs = one(alloc, two_blocks(alloc)?)?;
    funcs.push(nested(alloc)?)?;
    Ok(ModuleTree {
        props: entry(alloc, b"sym_name", AttrTree::Unit)?,
        attrs: entry(alloc, b"mark", AttrTree::Unit)?,
        funcs,
    })
}

/// How many functions of the module come back as the same ones.
fn returned(i: &mut PlainInterner, alloc: Global, tree: &ModuleTree) -> Result<u32, InternFault> {
    let module = Module::from_tree(alloc, tree, i)?;
    let Ok(back) = module.to_tree(alloc, i) else {
        return Err(InternFault::NoMemory);
    };
    let mut count = 0u32;
    for (f, g) in tree.funcs.as_slice().iter().zip(back.funcs.as_slice()) {
        if same_shape(alloc, f, g) == Ok(true) {
            count = count.saturating_add(1);
        }
    }
    Ok(count)
}

fn two_return(i: &mut PlainInterner, alloc: Global) -> bool {
    match two_funcs(alloc) {
        Ok(tree) => returned(i, alloc, &tree) == Ok(2),
        Err(_) => false,
    }
}

#[test]
fn a_module_comes_back(rt: HostRuntime) -> Result<(), Fail> {
    let mut i = PlainInterner::new(rt.alloc(), 16, None)?;
    assert!(rt; two_return(&mut i, rt.alloc()));
    Ok(())
}
