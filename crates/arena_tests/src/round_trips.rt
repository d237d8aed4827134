//! Trees that come back through the arena.

use crate::fixtures::{comes_back, nested, two_blocks};
use intern_api::PlainInterner;
use std::alloc::Global;
use std::test::Fail;
use tree_model::NoMemory;

fn two_blocks_return(i: &mut PlainInterner, alloc: Global) -> Result<bool, NoMemory> {
    let tree = two_blocks(alloc)?;
    Ok(comes_back(alloc, &tree, i))
}

fn nested_returns(i: &mut PlainInterner, alloc: Global) -> Result<bool, NoMemory> {
    let tree = nested(alloc)?;
    Ok(comes_back(alloc, &tree, i))
}

#[test]
fn a_function_of_two_blocks_comes_back(rt: HostRuntime) -> Result<(), Fail> {
    let mut i = PlainInterner::new(rt.alloc(), 16, None)?;
    assert_eq!(rt; two_blocks_return(&mut i, rt.alloc()), Ok(true));
    Ok(())
}

#[test]
fn a_function_with_a_region_inside_comes_back(rt: HostRuntime) -> Result<(), Fail> {
    let mut i = PlainInterner::new(rt.alloc(), 16, None)?;
    assert_eq!(rt; nested_returns(&mut i, rt.alloc()), Ok(true));
    Ok(())
}
