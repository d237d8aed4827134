//! `scf.for`, `scf.while`.

ghost use Rattle.std.specs.Prelude.{◌≡◌, ◌∷◌, ◌++◌, IfOk, OnOk, Some, [], map};
ghost use Rattle.tree_model.specs.declared.type_tree.TypeTree as type;
ghost use Rattle.scf_rows.specs.Trees.{for_args as args_cut, for_head, for_one as one_cut, for_pieces as pieces_cut, for_tail, for_trees, loop_values as new_values, next_tree, while_passed as passed_cut, while_pieces as while_parts, while_trees, while_two as two_cut};

use crate::products::{
    branch, compare, conditional, open, plain_branch, product, push_stands, values_behind,
};
use crate::regions::{Alone, only_block};
use cut_code::{CutLabel, CutValue, OpSketch, PieceList, PieceTree};
use sqlite_items::Items;
use std::alloc::Global;
use tree_model::{IdList, NoMemory, TypeTree, ValueList, copy_type, one};

/// What a loop counts: the bounds, the step and the initial values.
#[derive(Clone, Copy)]
pub struct Bounds<'a> {
    pub lower: u32,
    pub upper: u32,
    pub step: u32,
    pub initial: &'a [u32],
}

/// The new values of a loop: the bit of the test, and the next number.
fn loop_values(alloc: Global, t: &TypeTree) -> Result<ValueList, NoMemory>
    ensures { IfOk result (λ vs. vs ≡ new_values t.now) }
{
    let mut values = one(alloc, (0, TypeTree::Int(1)))?;
    let t = copy_type(alloc, t)?;
    values.push((1, t))?;
    Ok(values)
}

// The head's branch, and the block of the test.
fn push_test(
    pieces: &mut PieceList,
    alloc: Global,
    bounds: Bounds<'_>,
    body: u32,
    args: &[(u32, TypeTree)],
    counter: &(u32, TypeTree),
) -> Result<(), NoMemory>
    ensures { OnOk result (pieces.new ≡ pieces.old ++ for_head bounds.entry.lower bounds.entry.upper bounds.entry.initial.now body args.now counter.now) }
{
    let passed = values_behind(alloc, CutValue::Old(bounds.lower), bounds.initial)?;
    pieces.push(branch(
        alloc,
        loop_values(alloc, &counter.1)?,
        passed,
        CutLabel::New(0),
    )?)?;
    open(pieces, alloc, CutLabel::New(0), args)?;
    let (x, y) = (CutValue::Old(counter.0), CutValue::Old(bounds.upper));
    pieces.push(compare(alloc, loop_values(alloc, &counter.1)?, 0, x, y, 2)?)?;
    let known = loop_values(alloc, &counter.1)?;
    let (to, rest) = (CutLabel::Old(body), CutLabel::New(1));
    pieces.push(conditional(alloc, known, CutValue::New(0), &[], to, rest)?)?;
    Ok(())
}

fn next_number(alloc: Global, counter: &(u32, TypeTree), step: u32) -> Result<PieceTree, NoMemory>
    ensures { IfOk result (λ p. p ≡ next_tree counter.now step) }
{
    let known = loop_values(alloc, &counter.1)?;
    let t = copy_type(alloc, &counter.1)?;
    let results = one(alloc, (1, t))?;
    let operands = Items::from_slice(alloc, &[CutValue::Old(counter.0), CutValue::Old(step)])?;
    let piece = product(
        alloc,
        known,
        b"arith.addi",
        results,
        operands,
        Items::new(alloc),
        &[],
    )?;
    Ok(piece)
}

// The body, and what stands for its yield.
fn push_body(
    pieces: &mut PieceList,
    alloc: Global,
    step: u32,
    body: u32,
    counter: &(u32, TypeTree),
    passed: &[u32],
) -> Result<(), NoMemory>
    ensures { OnOk result (pieces.new ≡ pieces.old ++ for_tail step body counter.now passed.now) }
{
    open(pieces, alloc, CutLabel::Old(body), &[])?;
    pieces.push(PieceTree::Held(0, 0))?;
    pieces.push(next_number(alloc, counter, step)?)?;
    let again = values_behind(alloc, CutValue::New(1), passed)?;
    pieces.push(branch(
        alloc,
        loop_values(alloc, &counter.1)?,
        again,
        CutLabel::New(0),
    )?)?;
    open(pieces, alloc, CutLabel::New(1), &[])?;
    Ok(())
}

fn numbers_of(alloc: Global, values: &[(u32, TypeTree)]) -> Result<IdList, NoMemory>
    ensures { IfOk result (λ ns. ns ≡ map (λ v. v.0) values.now) }
{
    let mut numbers = Items::new(alloc);
    'each: for value in values {
        numbers.push(value.0)?;
    }
    Ok(numbers)
}

fn for_args(
    alloc: Global,
    results: &[(u32, TypeTree)],
    bounds: Bounds<'_>,
    body: &Alone,
) -> Result<Option<PieceList>, NoMemory>
    ensures { IfOk result (λ o. o ≡ args_cut results.now bounds.entry.lower bounds.entry.upper bounds.entry.step bounds.entry.initial.now body.now.label body.now.args body.now.passed) }
{
    let [counter, accs @ ..] = body.args.as_slice() else {
        return Ok(None);
    };
    let mut pieces = Items::new(alloc);
    push_test(
        &mut pieces,
        alloc,
        bounds,
        body.label,
        body.args.as_slice(),
        counter,
    )?;
    push_body(
        &mut pieces,
        alloc,
        bounds.step,
        body.label,
        counter,
        body.passed.as_slice(),
    )?;
    let accs = numbers_of(alloc, accs)?;
    push_stands(&mut pieces, alloc, results, accs.as_slice())?;
    Ok(Some(pieces))
}

pub fn for_cut(alloc: Global, op: &OpSketch) -> Result<Option<PieceList>, NoMemory>
    ensures { IfOk result (λ o. o ≡ for_trees op.now.results op.now.operands op.now.regions op.now.successors) }
{
    if op.successors != 0 {
        return Ok(None);
    }
    let ([lower, upper, step, initial @ ..], [region]) = (
        op.operands.as_slice(),
        op.regions.as_slice(),
    ) else {
        return Ok(None);
    };
    let Some(body) = only_block(alloc, region.blocks.as_slice())? else {
        return Ok(None);
    };
    let bounds = Bounds {
        lower: *lower,
        upper: *upper,
        step: *step,
        initial,
    };
    let pieces = for_args(alloc, op.results.as_slice(), bounds, &body)?;
    Ok(pieces)
}

fn while_pieces(
    alloc: Global,
    results: &[(u32, TypeTree)],
    initial: &[u32],
    before: &Alone,
    on: u32,
    values: &[u32],
    after: &Alone,
) -> Result<PieceList, NoMemory>
    ensures { IfOk result (λ ps. ps ≡ while_parts results.now initial.now before.now on values.now after.now) }
{
    let begin = CutLabel::Old(before.label);
    let (to, rest) = (CutLabel::Old(after.label), CutLabel::New(0));
    let mut pieces = one(alloc, plain_branch(alloc, initial, begin)?)?;
    open(&mut pieces, alloc, begin, before.args.as_slice())?;
    pieces.push(PieceTree::Held(0, 0))?;
    pieces.push(conditional(
        alloc,
        Items::new(alloc),
        CutValue::Old(on),
        values,
        to,
        rest,
    )?)?;
    open(&mut pieces, alloc, to, after.args.as_slice())?;
    pieces.push(PieceTree::Held(1, 0))?;
    pieces.push(plain_branch(alloc, after.passed.as_slice(), begin)?)?;
    open(&mut pieces, alloc, rest, &[])?;
    push_stands(&mut pieces, alloc, results, values)?;
    Ok(pieces)
}

pub fn while_cut(alloc: Global, op: &OpSketch) -> Result<Option<PieceList>, NoMemory>
    ensures { IfOk result (λ o. o ≡ while_trees op.now.results op.now.operands op.now.regions op.now.successors) }
{
    if op.successors != 0 {
        return Ok(None);
    }
    let [before, after] = op.regions.as_slice() else {
        return Ok(None);
    };
    let Some(before) = only_block(alloc, before.blocks.as_slice())? else {
        return Ok(None);
    };
    let Some(after) = only_block(alloc, after.blocks.as_slice())? else {
        return Ok(None);
    };
    let pieces = while_passed(
        alloc,
        op.results.as_slice(),
        op.operands.as_slice(),
        &before,
        &after,
    )?;
    Ok(pieces)
}

// The condition's own operands: the value that it tests, and those that it passes.
fn while_passed(
    alloc: Global,
    results: &[(u32, TypeTree)],
    initial: &[u32],
    before: &Alone,
    after: &Alone,
) -> Result<Option<PieceList>, NoMemory>
    ensures { IfOk result (λ o. o ≡ passed_cut results.now initial.now before.now before.now.passed after.now) }
{
    let [on, values @ ..] = before.passed.as_slice() else {
        return Ok(None);
    };
    let pieces = while_pieces(alloc, results, initial, before, *on, values, after)?;
    Ok(Some(pieces))
}
