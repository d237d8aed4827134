//! Operations on two integers.

use crate::ends::{Ended, ends_l, ends_s};
use small_programs::{Line, Note, Ty, binary, constant, one_function, plain};
use std::alloc::Global;
use std::test::Fail;
use tree_model::{ModuleTree, NoMemory};

/// Operations of 32 bits that are undefined at these two integers.
const UNDEFINED: [(&[u8], i64, i64); 12] = [
    (b"arith.divsi", 7, 0),
    (b"arith.divsi", -2147483648, -1),
    (b"arith.divui", 7, 0),
    (b"arith.remsi", 7, 0),
    (b"arith.remsi", -2147483648, -1),
    (b"arith.remui", 7, 0),
    (b"arith.ceildivsi", 7, 0),
    (b"arith.ceildivsi", -2147483648, -1),
    (b"arith.ceildivui", 7, 0),
    (b"arith.floordivsi", -2147483648, -1),
    (b"arith.shli", 1, 32),
    (b"arith.shrsi", 1, -1),
];

/// How many of the operations are undefined.
fn count_undefined(alloc: Global, table: &[(&[u8], i64, i64)]) -> Result<usize, NoMemory> {
    let mut count = 0usize;
    for (name, first, second) in table {
        let tree = binary(alloc, name, 32, *first, *second)?;
        if ends_s(alloc, &tree, &[])? == Ended::Undefined {
            count = count.saturating_add(1);
        }
    }
    Ok(count)
}

/// A function that adds 1 to its argument, of llvm operations.
fn increment_l(alloc: Global) -> Result<ModuleTree, NoMemory> {
    let ty = Ty::Int(32);
    let results = [(0, ty), (1, ty), (2, ty)];
    let lines = [
        constant(b"llvm.mlir.constant", &results[1..2], 1, ty),
        plain(b"llvm.add", &results[2..3], &[0, 1]),
        plain(b"llvm.return", &[], &[2]),
    ];
    one_function(alloc, &results[0..1], &[ty], &[ty], &lines)
}

/// A sum of two integers of 8 bits that promises not to wrap.
fn promised(alloc: Global) -> Result<ModuleTree, NoMemory> {
    let ty = Ty::Int(8);
    let results = [(0, ty), (1, ty)];
    let sum = Line {
        note: Note::Promise(b"nsw"),
        ..plain(b"arith.addi", &results[1..2], &[0, 0])
    };
    let lines = [sum, plain(b"func.return", &[], &[1])];
    one_function(alloc, &results[0..1], &[ty], &[ty], &lines)
}

#[test]
fn undefined_operations_end_a_run(rt: HostRuntime) -> Result<(), Fail> {
    assert_eq!(rt; count_undefined(rt.alloc(), &UNDEFINED)?, UNDEFINED.len());
    Ok(())
}

#[test]
fn a_division_rounds_up(rt: HostRuntime) -> Result<(), Fail> {
    let alloc = rt.alloc();
    let tree = binary(alloc, b"arith.ceildivsi", 32, -7, 2)?;
    assert_eq!(rt; ends_s(alloc, &tree, &[])?, Ended::One(-3));
    Ok(())
}

#[test]
fn one_more_by_llvm(rt: HostRuntime) -> Result<(), Fail> {
    let alloc = rt.alloc();
    assert_eq!(rt;
        ends_l(alloc, &increment_l(alloc)?, &[41], 3)?,
        Ended::One(42)
    );
    Ok(())
}

#[test]
fn two_units_are_too_few(rt: HostRuntime) -> Result<(), Fail> {
    let alloc = rt.alloc();
    assert_eq!(rt; ends_l(alloc, &increment_l(alloc)?, &[41], 2)?, Ended::More);
    Ok(())
}

#[test]
fn an_argument_that_does_not_fit_is_outside(rt: HostRuntime) -> Result<(), Fail> {
    let alloc = rt.alloc();
    let tree = increment_l(alloc)?;
    assert_eq!(rt; ends_l(alloc, &tree, &[1 << 32], 3)?, Ended::Outside);
    Ok(())
}

#[test]
fn a_broken_promise_is_undefined(rt: HostRuntime) -> Result<(), Fail> {
    let alloc = rt.alloc();
    let tree = promised(alloc)?;
    assert_eq!(rt; ends_s(alloc, &tree, &[64])?, Ended::Undefined);
    Ok(())
}
