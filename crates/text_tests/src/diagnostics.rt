//! The order of diagnostics.

use ordered_diags::{Diag, merge};
use sqlite_items::Items;
use std::alloc::Global;
use std::process::Abort;
use std::test::Fail;
use tree_model::Bytes;

/// The lines of three failed units, in their order.
const LINES: [(u32, u32, u32, u32, &str); 6] = [
    (
        0,
        1,
        0,
        7,
        "error: @f: arith-expand: operation 7 'arith.divsi' is not legalised",
    ),
    (0, 1, 1, 7, "note: patterns with this root: 0"),
    (
        0,
        2,
        0,
        3,
        "error: @f: convert-cf-to-llvm: operation 3 'cf.br' is not legalised",
    ),
    (0, 2, 1, 3, "note: patterns with this root: 1"),
    (
        2,
        0,
        0,
        1,
        "error: @\"a b\": arith-expand: operation 1 'arith.remsi' is not legalised",
    ),
    (2, 0, 1, 1, "note: patterns with this root: 2"),
];

/// The lines from the last to the first, each in the list that `split` says.
fn given(alloc: Global, split: [u8; 6]) -> Result<Items<Items<Diag>>, Fail> {
    let mut first = Items::new(alloc);
    let mut second = Items::new(alloc);
    let mut third = Items::new(alloc);
    for ((function, pass, sequence, place, text), list) in LINES.iter().zip(split.iter()).rev() {
        let text = Bytes::from_slice(alloc, text.as_bytes())?;
        let diag = Diag {
            function: *function,
            pass: *pass,
            sequence: *sequence,
            place: *place,
            text,
        };
        match *list {
            0 => first.push(diag)?,
            1 => second.push(diag)?,
            _ => third.push(diag)?,
        }
    }
    let mut lists = Items::new(alloc);
    lists.push(first)?;
    lists.push(second)?;
    lists.push(third)?;
    Ok(lists)
}

#[test]
fn lines_stand_in_one_order_however_they_are_split(rt: HostRuntime) -> Result<(), Fail> {
    for split in [[0, 0, 0, 0, 0, 0], [2, 0, 1, 2, 1, 0], [1, 2, 1, 1, 2, 2]] {
        let merged = merge(rt.alloc(), given(rt.alloc(), split)?)?;
        assert_eq!(rt; merged.len(), LINES.len());
        for (diag, (function, pass, sequence, place, text)) in merged
            .as_slice()
            .iter()
            .zip(LINES.iter())
        {
            let numbers = (diag.function, diag.pass, diag.sequence, diag.place);
            assert_eq!(rt; numbers, (*function, *pass, *sequence, *place));
            assert!(rt; diag.text.as_slice() == text.as_bytes(), "{text}");
        }
    }
    Ok(())
}
