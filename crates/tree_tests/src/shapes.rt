//! Sameness of functions up to numbers.

use crate::fixtures::{block, entry, one, plain_op, two};
use sqlite_items::Items;
use std::alloc::Global;
use std::process::Abort;
use std::test::Fail;
use tree_model::{AttrTree, BlockList, FuncTree, NoMemory, OpTree, RegionTree, TypeTree};
use tree_shape::same_shape;

/// The sum of two values, with an attribute.
fn sum(
    alloc: Global,
    name: &[u8],
    value: (u32, u32),
    operands: &[u32],
    flag: i64,
) -> Result<OpTree, NoMemory> {
    let mut sum = plain_op(alloc, name, &[value], operands)?;
    sum.attrs = entry(alloc, b"flag", AttrTree::Int(flag, TypeTree::Int(64)))?;
    Ok(sum)
}

fn func(alloc: Global, blocks: BlockList) -> Result<FuncTree, NoMemory> {
    let mut op = plain_op(alloc, b"func.func", &[], &[])?;
    op.regions = one(alloc, RegionTree { blocks })?;
    Ok(FuncTree { op })
}

/// A function whose first block adds its two arguments and passes the sum to the second, which
/// returns it. The values are the two arguments, the sum, its two operands, what is passed on, the
/// second block's argument and what is returned. The labels are that of the first block, the one
/// that is branched to, and that of the second block.
fn sample(alloc: Global, v: [u32; 8], labels: [u32; 3]) -> Result<FuncTree, NoMemory> {
    let mut branch = plain_op(alloc, b"cf.br", &[], &[v[5]])?;
    branch.successors = Items::from_slice(alloc, &[labels[1]])?;
    let mut first = block(alloc, labels[0], &[(v[0], 32), (v[1], 32)])?;
    let added = sum(alloc, b"arith.addi", (v[2], 32), &[v[3], v[4]], 4)?;
    first.ops = two(alloc, added, branch)?;
    let mut last = block(alloc, labels[2], &[(v[6], 32)])?;
    last.ops = one(alloc, plain_op(alloc, b"func.return", &[], &[v[7]])?)?;
    func(alloc, two(alloc, first, last)?)
}

/// Both ways round, the answer is `want`.
fn compares(
    rt: &impl Abort,
    alloc: Global,
    a: &FuncTree,
    b: &FuncTree,
    want: bool,
) -> Result<(), NoMemory> {
    let there = same_shape(alloc, a, b)?;
    let back = same_shape(alloc, b, a)?;
    assert_eq!(rt; there, want);
    assert_eq!(rt; back, want);
    Ok(())
}

const VALUES: [u32; 8] = [0, 1, 2, 0, 1, 2, 3, 3];

const LABELS: [u32; 3] = [0, 1, 1];

#[test]
fn values_are_renamed_one_to_one(rt: HostRuntime) -> Result<(), Fail> {
    let alloc = rt.alloc();
    let base = sample(alloc, VALUES, LABELS)?;
    let cases = [
        (VALUES, true),
        ([5, 9, 7, 5, 9, 7, 4, 4], true),
        // the names of two pairs of values are exchanged
        ([1, 0, 3, 1, 0, 3, 2, 2], true),
        // the operands are swapped
        ([0, 1, 2, 1, 0, 2, 3, 3], false),
        // two values are made one
        ([0, 0, 2, 0, 0, 2, 3, 3], false),
        ([0, 1, 1, 0, 1, 1, 3, 3], false),
        // another value is passed on, and another is returned
        ([0, 1, 2, 0, 1, 0, 3, 3], false),
        ([0, 1, 2, 0, 1, 2, 3, 2], false),
    ];
    for (values, want) in cases {
        compares(&rt, alloc, &base, &sample(alloc, values, LABELS)?, want)?;
    }
    Ok(())
}

#[test]
fn labels_are_renamed_one_to_one(rt: HostRuntime) -> Result<(), Fail> {
    let alloc = rt.alloc();
    let base = sample(alloc, VALUES, LABELS)?;
    let cases = [
        ([8, 3, 3], true),
        ([1, 0, 0], true),
        // both blocks have one label
        ([1, 1, 1], false),
        // the first block branches to itself
        ([0, 0, 1], false),
    ];
    for (labels, want) in cases {
        compares(&rt, alloc, &base, &sample(alloc, VALUES, labels)?, want)?;
    }
    Ok(())
}

/// A function of one block with this sum in it so many times.
fn sums(
    alloc: Global,
    name: &[u8],
    width: u32,
    flag: i64,
    times: usize,
) -> Result<FuncTree, NoMemory> {
    let mut body = block(alloc, 0, &[(0, 32)])?;
    for _ in 0..times {
        body.ops.push(sum(alloc, name, (1, width), &[0, 0], flag)?)?;
    }
    func(alloc, one(alloc, body)?)
}

/// A function of such sums isn't the same as the base.
fn differs(
    rt: &impl Abort,
    alloc: Global,
    base: &FuncTree,
    name: &[u8],
    width: u32,
    flag: i64,
    times: usize,
) -> Result<(), NoMemory> {
    let other = sums(alloc, name, width, flag, times)?;
    compares(rt, alloc, base, &other, false)
}

#[test]
fn names_types_attributes_and_operations_count(rt: HostRuntime) -> Result<(), Fail> {
    let alloc = rt.alloc();
    let base = sums(alloc, b"arith.addi", 32, 4, 1)?;
    differs(&rt, alloc, &base, b"arith.muli", 32, 4, 1)?;
    differs(&rt, alloc, &base, b"arith.addi", 64, 4, 1)?;
    differs(&rt, alloc, &base, b"arith.addi", 32, 5, 1)?;
    differs(&rt, alloc, &base, b"arith.addi", 32, 4, 2)?;
    Ok(())
}
