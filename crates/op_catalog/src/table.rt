//! A look at the table by names that are written out.

use crate::{inherent, is_terminator, row};
use std::alloc::Global;
use std::process::Abort;
use std::test::Fail;
use tree_model::{Name, NoMemory};

fn shows(
    rt: &impl Abort,
    alloc: Global,
    text: &[u8],
    is_there: bool,
    ends: bool,
    has_value: bool,
) -> Result<(), NoMemory> {
    let name = Name::from_slice(alloc, text)?;
    match row(&name) {
        Some(found) => {
            assert!(rt; is_there);
            assert_eq!(rt; is_terminator(found), ends);
            assert_eq!(rt; inherent(found, b"value"), has_value);
        }
        None => assert!(rt; !is_there),
    }
    Ok(())
}

#[test]
fn names_have_their_rows(rt: HostRuntime) -> Result<(), Fail> {
    let alloc = rt.alloc();
    shows(&rt, alloc, b"builtin.module", true, false, false)?;
    shows(&rt, alloc, b"arith.constant", true, false, true)?;
    shows(&rt, alloc, b"scf.yield", true, true, false)?;
    shows(&rt, alloc, b"llvm.store", true, false, false)?;
    shows(&rt, alloc, b"sym_name", false, false, false)?;
    shows(&rt, alloc, b"test.op", false, false, false)?;
    Ok(())
}
