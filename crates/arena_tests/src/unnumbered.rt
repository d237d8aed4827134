//! Trees whose numbers don't fit are refused.

use crate::fixtures::{block, comes_back, func, op};
use intern_api::PlainInterner;
use std::alloc::Global;
use std::test::Fail;
use tree_model::{FuncTree, NoMemory};

/// A function whose first operation defines one value, and whose second one names an operand and a successor.
fn naming(alloc: Global, defined: u32, operand: u32, successor: u32) -> Result<FuncTree, NoMemory> {
    let define = op(alloc, b"arith.constant", &[(defined, 32)], &[], &[])?;
    let jump = op(alloc, b"cf.br", &[], &[operand], &[successor])?;
    let first = block(alloc, 1, &[], define, jump)?;
    let other = op(alloc, b"arith.constant", &[(9, 32)], &[], &[])?;
    let last = op(alloc, b"func.return", &[], &[], &[])?;
    let second = block(alloc, 2, &[], other, last)?;
    func(alloc, first, second)
}

fn is_taken(
    i: &mut PlainInterner,
    alloc: Global,
    defined: u32,
    operand: u32,
    successor: u32,
) -> Result<bool, NoMemory> {
    let tree = naming(alloc, defined, operand, successor)?;
    Ok(comes_back(alloc, &tree, i))
}

#[test]
fn each_number_is_defined_once(rt: HostRuntime) -> Result<(), Fail> {
    let mut i = PlainInterner::new(rt.alloc(), 1, None)?;
    assert_eq!(rt; is_taken(&mut i, rt.alloc(), 7, 7, 2), Ok(true));
    assert_eq!(rt; is_taken(&mut i, rt.alloc(), 9, 9, 2), Ok(false));
    assert_eq!(rt; is_taken(&mut i, rt.alloc(), 7, 8, 2), Ok(false));
    assert_eq!(rt; is_taken(&mut i, rt.alloc(), 7, 7, 3), Ok(false));
    Ok(())
}
