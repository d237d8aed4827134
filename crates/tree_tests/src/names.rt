//! Names with and without memory of their own.

use std::alloc::Global;
use std::process::Abort;
use std::test::Fail;
use tree_model::{Name, NoMemory};

fn shows_known(rt: &impl Abort, alloc: Global) -> Result<(), NoMemory> {
    let name = Name::from_slice(alloc, b"arith.addi")?;
    assert_eq!(rt; name.as_slice(), b"arith.addi".as_slice());
    assert!(rt; name.number().is_some());
    assert_eq!(rt; Name::known(0).as_slice(), b"builtin.module".as_slice());
    let copy = name.copy(alloc)?;
    assert!(rt; copy == name);
    assert!(rt; Name::known(0) != name);
    Ok(())
}

fn shows_other(rt: &impl Abort, alloc: Global) -> Result<(), NoMemory> {
    let name = Name::from_slice(alloc, b"t.addi")?;
    assert_eq!(rt; name.as_slice(), b"t.addi".as_slice());
    assert!(rt; name.number().is_none());
    let copy = name.copy(alloc)?;
    assert!(rt; copy == name);
    assert!(rt; Name::known(0) != name);
    Ok(())
}

#[test]
fn known_names_are_found_and_others_keep_their_bytes(rt: HostRuntime) -> Result<(), Fail> {
    let alloc = rt.alloc();
    shows_known(&rt, alloc)?;
    shows_other(&rt, alloc)?;
    Ok(())
}
