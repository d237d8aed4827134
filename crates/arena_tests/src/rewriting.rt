//! Edits, and the way back.

use crate::fixtures::two_blocks;
use intern_api::PlainInterner;
use ir_arena::Func;
use std::alloc::Global;
use std::test::Fail;
use tree_model::FuncTree;
use tree_shape::same_shape;
use undo_rewriter::Rewriter;

/// The first operation of the first block is erased, and comes back.
fn erased_and_back(rw: &mut Rewriter) -> bool {
    let root = rw.func().root();
    let regions = rw.func().regions(root);
    if regions.is_empty() {
        return false;
    }
    let blocks = rw.func().blocks(regions[0]);
    if blocks.is_empty() {
        return false;
    }
    let block = blocks[0];
    if rw.func().op_count(block) == 0 {
        return false;
    }
    let start = rw.checkpoint();
    if rw.erase_at(block, 0).is_err() {
        return false;
    }
    rw.rollback(start) == 1
}

fn comes_back_after_edits(alloc: Global, i: &mut PlainInterner, tree: &FuncTree) -> bool {
    let Ok(func) = Func::from_tree(alloc, tree, i) else {
        return false;
    };
    let mut rw = Rewriter::new(alloc, func);
    if !erased_and_back(&mut rw) {
        return false;
    }
    match rw.func().to_tree(alloc, i) {
        Ok(back) => same_shape(alloc, tree, &back) == Ok(true),
        Err(_) => false,
    }
}

fn edited(alloc: Global, i: &mut PlainInterner) -> bool {
    match two_blocks(alloc) {
        Ok(tree) => comes_back_after_edits(alloc, i, &tree),
        Err(_) => false,
    }
}

#[test]
fn an_erased_operation_comes_back(rt: HostRuntime) -> Result<(), Fail> {
    let mut i = PlainInterner::new(rt.alloc(), 1, None)?;
    assert!(rt; edited(rt.alloc(), &mut i));
    Ok(())
}
