//! Failed units, and their lines in one order.

use failure_lines::{FailedUnit, failure_lines};
use ordered_diags::{Diag, merge};
use sqlite_items::Items;
use std::alloc::Global;
use tree_model::{Bytes, NoMemory};

/// Units, of which no two agree in function and pass. They stand in no order.
const UNITS: &[FailedUnit<'static>] = &[
    FailedUnit {
        function: 7,
        pass: 0,
        function_name: b"",
        pass_name: b"arith-expand",
        operation: 3,
        operation_name: b"arith.ceildivsi",
        patterns: 1,
    },
    FailedUnit {
        function: 2,
        pass: 11,
        function_name: b"f",
        pass_name: b"convert-cf-to-llvm",
        operation: 4294967295,
        operation_name: b"",
        patterns: 4294967295,
    },
    FailedUnit {
        function: 2,
        pass: 1,
        function_name: b"f",
        pass_name: b"full-convert-to-llvm",
        operation: 0,
        operation_name: b"func.func",
        patterns: 0,
    },
    FailedUnit {
        function: 0,
        pass: 5,
        function_name: b"_a$b.c9",
        pass_name: b"convert-scf-to-cf",
        operation: 10,
        operation_name: b"a\"b\\c'd",
        patterns: 10,
    },
    FailedUnit {
        function: 10,
        pass: 0,
        function_name: b"9a",
        pass_name: b"finalize-memref-to-llvm",
        operation: 1,
        operation_name: b"\x00 \x1f~\x7f\xff",
        patterns: 2,
    },
    FailedUnit {
        function: 9,
        pass: 0,
        function_name: b"a \"b\\\n",
        pass_name: b"convert-func-to-llvm",
        operation: 2,
        operation_name: b"t.\xc3\xa9",
        patterns: 1,
    },
    FailedUnit {
        function: 0,
        pass: 0,
        function_name: b"a-b",
        pass_name: b"convert-arith-to-llvm",
        operation: 12,
        operation_name: b"arith.divsi",
        patterns: 2,
    },
];

/// Where a line stands, and its text.
fn put_line(out: &mut Bytes, line: &Diag) -> Result<(), NoMemory> {
    for number in [line.function, line.pass, line.sequence, line.place] {
        out.put_number(u64::from(number))?;
        out.put(b" ")?;
    }
    out.put(line.text.as_slice())?;
    out.put(b"\n")
}

/// The lines of all units, merged.
pub fn put_units(alloc: Global, out: &mut Bytes) -> Result<(), NoMemory> {
    let mut lists = Items::new(alloc);
    for unit in UNITS {
        lists.push(failure_lines(alloc, unit)?)?;
    }
    let merged = merge(alloc, lists)?;
    for line in merged.as_slice() {
        put_line(out, line)?;
    }
    Ok(())
}
