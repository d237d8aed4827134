//! Tables and doings.

use call_code::{gathered, unpacked};
use doing_code::{Doing, doing_of};
use number_code::{Binary, Flags};
use round_code::{answered, numbers, signed_numbers};
use run_code::{Form, Layout, Packing, Pure, full_width};
use sqlite_items::Items;
use std::alloc::Global;
use std::process::Abort;
use std::test::Fail;
use table_code::{bind, no_values, operands};
use value_code::{Looked, Value, ValueList};

fn integers(alloc: Global, ns: &[u64]) -> Result<ValueList, Fail> {
    let mut all = Items::new(alloc);
    for n in ns {
        all.push(Value::Integer(*n))?;
    }
    Ok(all)
}

#[test]
fn what_is_bound_is_found(rt: HostRuntime) -> Result<(), Fail> {
    let alloc = rt.alloc();
    let mut table = no_values(alloc);
    let values = integers(alloc, &[7, 8])?;
    assert!(rt; bind(alloc, &mut table, &[5, 2], values.as_slice())?);
    match operands(alloc, &table, &[2, 5])? {
        Some(found) => assert_eq!(rt; found.len(), 2),
        None => rt.panic("nothing is found"),
    }
    assert!(rt; operands(alloc, &table, &[3])?.is_none());
    Ok(())
}

#[test]
fn a_sum_is_given(rt: HostRuntime) -> Result<(), Fail> {
    let alloc = rt.alloc();
    let flags = Flags {
        signed: false,
        unsigned: false,
    };
    let form = Form::Computes(Pure::TwoNumbers(Binary::Add(flags), full_width()));
    match doing_of(alloc, &form, &[], integers(alloc, &[40, 2])?)? {
        Doing::Gives(Value::Integer(n)) => assert_eq!(rt; n, 42),
        _ => rt.panic("no number is given"),
    }
    Ok(())
}

#[test]
fn a_new_memref_asks_for_its_bytes(rt: HostRuntime) -> Result<(), Fail> {
    let alloc = rt.alloc();
    let mut sizes = Items::new(alloc);
    sizes.push(Some(3))?;
    sizes.push(None)?;
    let form = Form::NewMemref(Layout {
        bits: full_width(),
        sizes,
        element: full_width(),
        alignment: 1,
    });
    match doing_of(alloc, &form, &[], integers(alloc, &[5])?)? {
        Doing::Makes(m) => assert_eq!(rt; m.bytes, 120),
        _ => rt.panic("nothing is made"),
    }
    Ok(())
}

#[test]
fn results_are_packed(rt: HostRuntime) -> Result<(), Fail> {
    let alloc = rt.alloc();
    match doing_of(
        alloc,
        &Form::Return(Packing::Together),
        &[],
        integers(alloc, &[1, 2])?,
    )? {
        Doing::Returns(values) => assert_eq!(rt; values.len(), 1),
        _ => rt.panic("nothing is returned"),
    }
    Ok(())
}

#[test]
fn answers_end_with_zeros(rt: HostRuntime) -> Result<(), Fail> {
    let alloc = rt.alloc();
    let widths = [full_width(), full_width()];
    let ns = answered(alloc, &widths, &[-1])?;
    assert_eq!(rt; ns.as_slice(), [u64::MAX, 0].as_slice());
    let zs = signed_numbers(alloc, &widths, ns.as_slice())?;
    assert_eq!(rt; zs.as_slice(), [-1, 0].as_slice());
    let values = integers(alloc, &[1, 2])?;
    assert!(rt; matches!(numbers(alloc, values.as_slice())?, Looked::Gives(_)));
    Ok(())
}

#[test]
fn a_descriptor_is_gathered_from_its_fields(rt: HostRuntime) -> Result<(), Fail> {
    let alloc = rt.alloc();
    let values = integers(alloc, &[9, 1, 2, 3, 4, 5])?;
    let gathered = gathered(alloc, &[None, Some(1)], values.as_slice())?;
    assert_eq!(rt; gathered.map(|args| args.len()), Some(2));
    Ok(())
}

#[test]
fn too_few_fields_are_no_descriptor(rt: HostRuntime) -> Result<(), Fail> {
    let alloc = rt.alloc();
    let values = integers(alloc, &[1, 2, 3, 4])?;
    assert!(rt; gathered(alloc, &[Some(1)], values.as_slice())?.is_none());
    Ok(())
}

#[test]
fn results_are_unpacked(rt: HostRuntime) -> Result<(), Fail> {
    let alloc = rt.alloc();
    let mut returned = Items::new(alloc);
    returned.push(Value::Aggregate(integers(alloc, &[1, 2])?))?;
    let results = unpacked(alloc, Packing::Together, returned.as_slice())?;
    assert_eq!(rt; results.map(|all| all.len()), Some(2));
    Ok(())
}
