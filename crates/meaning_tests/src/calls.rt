//! Loops, calls and traces.

use crate::ends::{Ended, end_seen, ends_l, ends_s, fueled_s};
use meaning_s::{Outcome, run_s};
use small_programs::{counted_l, counted_s, descent, loop_by, nested_ticks, ticks};
use std::test::Fail;
use tree_model::Name;

/// The argument and the answer of an external call, 0 and 0 where there are none.
fn told(outcome: &Outcome, i: usize) -> (i64, i64) {
    match outcome.trace.as_slice().get(i) {
        Some(call) => match (call.args.as_slice(), call.answers.as_slice()) {
            ([arg, ..], [answer, ..]) => (*arg, *answer),
            _ => (0, 0),
        },
        None => (0, 0),
    }
}

#[test]
fn a_loop_counts_and_carries(rt: HostRuntime) -> Result<(), Fail> {
    let alloc = rt.alloc();
    let tree = loop_by(alloc, 2)?;
    assert_eq!(rt; ends_s(alloc, &tree, &[])?, Ended::One(15));
    Ok(())
}

#[test]
fn a_step_of_0_is_undefined(rt: HostRuntime) -> Result<(), Fail> {
    let alloc = rt.alloc();
    let tree = loop_by(alloc, 0)?;
    assert_eq!(rt; ends_s(alloc, &tree, &[])?, Ended::Undefined);
    Ok(())
}

#[test]
fn fuel_ends_a_run(rt: HostRuntime) -> Result<(), Fail> {
    let alloc = rt.alloc();
    let tree = loop_by(alloc, 2)?;
    assert_eq!(rt; end_seen(&fueled_s(alloc, &tree, &[], 14)?), Ended::More);
    Ok(())
}

#[test]
fn the_last_unit_of_fuel_is_enough(rt: HostRuntime) -> Result<(), Fail> {
    let alloc = rt.alloc();
    let tree = loop_by(alloc, 2)?;
    assert_eq!(rt; end_seen(&fueled_s(alloc, &tree, &[], 15)?), Ended::One(15));
    Ok(())
}

#[test]
fn a_declared_function_is_told_its_arguments(rt: HostRuntime) -> Result<(), Fail> {
    let alloc = rt.alloc();
    let outcome = fueled_s(alloc, &nested_ticks(alloc)?, &[], 1000)?;
    assert_eq!(rt; end_seen(&outcome), Ended::Nothing);
    assert_eq!(rt; outcome.trace.len(), 4);
    assert_eq!(rt; told(&outcome, 1), (1, 0));
    assert_eq!(rt; told(&outcome, 2), (0, 0));
    assert_eq!(rt; told(&outcome, 3), (1, 0));
    Ok(())
}

#[test]
fn answers_are_wrapped_to_their_width(rt: HostRuntime) -> Result<(), Fail> {
    let alloc = rt.alloc();
    let tree = ticks(alloc)?;
    let name = Name::from_slice(alloc, b"f")?;
    let outcome = run_s(alloc, &tree, &name, &[], &[(1 << 32) + 5], 100, 32)?;
    assert_eq!(rt; end_seen(&outcome), Ended::One(5));
    assert_eq!(rt; told(&outcome, 0), (7, 5));
    Ok(())
}

#[test]
fn calls_are_200_000_deep(rt: HostRuntime) -> Result<(), Fail> {
    let alloc = rt.alloc();
    let tree = descent(alloc)?;
    assert_eq!(rt; ends_s(alloc, &tree, &[200_000])?, Ended::One(200_000));
    Ok(())
}

#[test]
fn both_forms_of_a_loop_come_to_the_same(rt: HostRuntime) -> Result<(), Fail> {
    let alloc = rt.alloc();
    let structured = ends_s(alloc, &counted_s(alloc)?, &[20])?;
    assert_eq!(rt; ends_l(alloc, &counted_l(alloc)?, &[20], 1000)?, structured);
    Ok(())
}
