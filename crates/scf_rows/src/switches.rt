//! `scf.index_switch`.

ghost use Rattle.std.specs.Prelude.{◌≡◌, ◌+◌, ◌*◌, ◌<◌, ◌==◌, ◌∷◌, ◌++◌, IfOk, None, OnOk, Some, [], codes, length, option_map, if◌then◌else◌};
ghost use Rattle.tree_model.specs.declared.type_tree.TypeTree as type;
ghost use Rattle.cut_code.specs.declared.pieces.CutLabel.TheVariants as labels;
ghost use Rattle.plain_tree.specs.Attrs.{entry as entry_of, plain_attr, plain_entries};
ghost use Rattle.scf_rows.specs.Trees.{case_numbers as numbers_in, case_test, case_trees, constant_tree, head_trees, switch_blocks as blocks_cut, switch_pieces as pieces_cut, switch_trees, test_trees, tests_trees, yields_trees};

use crate::products::{compare, conditional, open, plain_branch, product, push_yields};
use crate::regions::{Alone, all_alone};
use cut_code::{CutLabel, CutValue, OpSketch, PieceList, PieceTree};
use row_code::{constant_value, find};
use sqlite_items::Items;
use std::alloc::{AllocError, Global};
use tree_model::{AttrTree, NoMemory, TypeTree, ValueList, one};

/// The new values of a test, by their places: the constant and the bit.
fn test_values(alloc: Global, constant: u32, bit: u32) -> Result<ValueList, NoMemory>
    ensures { IfOk result (λ vs. vs ≡ (constant, type.Index) ∷ (bit, type.Int 1) ∷ []) }
{
    let mut values = one(alloc, (constant, TypeTree::Index))?;
    values.push((bit, TypeTree::Int(1)))?;
    Ok(values)
}

fn constant_place(test: usize) -> Result<u32, NoMemory>
    ensures { IfOk result (λ k. k ≡ 2 * test) }
{
    let Ok(test) = u32::try_from(test) else {
        return Err(AllocError);
    };
    match test.checked_mul(2) {
        Some(place) => Ok(place),
        None => Err(AllocError),
    }
}

fn place_behind(place: u32) -> Result<u32, NoMemory>
    ensures { IfOk result (λ k. k ≡ place + 1) }
{
    match place.checked_add(1) {
        Some(next) => Ok(next),
        None => Err(AllocError),
    }
}

fn case_constant(alloc: Global, constant: u32, bit: u32, number: i64) -> Result<PieceTree, NoMemory>
    ensures { IfOk result (λ p. p ≡ constant_tree constant bit number) }
{
    let known = test_values(alloc, constant, bit)?;
    let props = constant_value(alloc, TypeTree::Index, number)?;
    let results = one(alloc, (constant, TypeTree::Index))?;
    let nothing = Items::new(alloc);
    let piece = product(
        alloc,
        known,
        b"arith.constant",
        results,
        nothing,
        props,
        &[],
    )?;
    Ok(piece)
}

/// The test of a case number.
fn push_test(
    pieces: &mut PieceList,
    alloc: Global,
    index: u32,
    test: usize,
    number: i64,
    case: CutLabel,
    other: CutLabel,
) -> Result<(), NoMemory>
    ensures { OnOk result (pieces.new ≡ pieces.old ++ test_trees index test number case other) }
{
    let constant = constant_place(test)?;
    let bit = place_behind(constant)?;
    pieces.push(case_constant(alloc, constant, bit, number)?)?;
    let known = test_values(alloc, constant, bit)?;
    let (x, y) = (CutValue::Old(index), CutValue::New(constant));
    pieces.push(compare(alloc, known, bit, x, y, 0)?)?;
    let known = test_values(alloc, constant, bit)?;
    pieces.push(conditional(alloc, known, CutValue::New(bit), &[], case, other)?)?;
    Ok(())
}

fn next_label(test: usize) -> Result<CutLabel, NoMemory>
    ensures { IfOk result (λ l. l ≡ labels.New (test + 1)) }
{
    let Ok(test) = u32::try_from(test) else {
        return Err(AllocError);
    };
    let next = place_behind(test)?;
    Ok(CutLabel::New(next))
}

// The test of a case, and where more cases follow the block of the next test.
fn push_case(
    pieces: &mut PieceList,
    alloc: Global,
    index: u32,
    test: usize,
    number: i64,
    case: u32,
    default: Option<u32>,
) -> Result<(), NoMemory>
    ensures { OnOk result (pieces.new ≡ pieces.old ++ case_test index test number case default) }
{
    let case = CutLabel::Old(case);
    if let Some(default) = default {
        push_test(
            pieces,
            alloc,
            index,
            test,
            number,
            case,
            CutLabel::Old(default),
        )?;
        return Ok(());
    }
    let next = next_label(test)?;
    push_test(pieces, alloc, index, test, number, case, next)?;
    open(pieces, alloc, next, &[])?;
    Ok(())
}

fn last_or_none(place: usize, count: usize, default: u32) -> Option<u32>
    requires { place < count }
    ensures { result ≡ (if place + 1 == count then Some default else None) }
{
    if place + 1 == count {
        Some(default)
    } else {
        None
    }
}

/// The tests of all cases, each in a block of its own but the first.
fn push_tests(
    pieces: &mut PieceList,
    alloc: Global,
    index: u32,
    numbers: &[i64],
    cases: &[Alone],
    default: u32,
) -> Result<(), NoMemory>
    requires { length numbers.now ≡ length cases.now }
    ensures { OnOk result (pieces.new ≡ pieces.old ++ tests_trees index 0 numbers.now cases.now default) }
{
    'each: for place in 0..numbers.len() {
        let last = last_or_none(place, numbers.len(), default);
        push_case(
            pieces,
            alloc,
            index,
            place,
            numbers[place],
            cases[place].label,
            last,
        )?;
    }
    Ok(())
}

/// Without cases the head goes to the default.
fn push_head(
    pieces: &mut PieceList,
    alloc: Global,
    index: u32,
    numbers: &[i64],
    cases: &[Alone],
    default: u32,
) -> Result<(), NoMemory>
    requires { length numbers.now ≡ length cases.now }
    ensures { OnOk result (pieces.new ≡ pieces.old ++ head_trees index numbers.now cases.now default) }
{
    if numbers.is_empty() {
        let begin = plain_branch(alloc, &[], CutLabel::Old(default))?;
        pieces.push(begin)?;
        return Ok(());
    }
    push_tests(pieces, alloc, index, numbers, cases, default)?;
    Ok(())
}

fn push_numbered(
    pieces: &mut PieceList,
    alloc: Global,
    place: usize,
    block: &Alone,
) -> Result<(), NoMemory>
    ensures { OnOk result (pieces.new ≡ pieces.old ++ yields_trees (labels.New 0) (place + 1) block.now) }
{
    let Ok(place) = u32::try_from(place) else {
        return Err(AllocError);
    };
    let region = place_behind(place)?;
    push_yields(pieces, alloc, region, block)?;
    Ok(())
}

/// The blocks of the cases.
fn push_cases(pieces: &mut PieceList, alloc: Global, cases: &[Alone]) -> Result<(), NoMemory>
    ensures { OnOk result (pieces.new ≡ pieces.old ++ case_trees 1 cases.now) }
{
    'each: for place in 0..cases.len() {
        push_numbered(pieces, alloc, place, &cases[place])?;
    }
    Ok(())
}

fn switch_pieces(
    alloc: Global,
    results: &[(u32, TypeTree)],
    index: u32,
    numbers: &[i64],
    default: &Alone,
    cases: &[Alone],
) -> Result<PieceList, NoMemory>
    requires { length numbers.now ≡ length cases.now }
    ensures { IfOk result (λ ps. ps ≡ pieces_cut results.now index numbers.now default.now cases.now) }
{
    let mut pieces = Items::new(alloc);
    push_head(&mut pieces, alloc, index, numbers, cases, default.label)?;
    push_cases(&mut pieces, alloc, cases)?;
    push_yields(&mut pieces, alloc, 0, default)?;
    open(&mut pieces, alloc, CutLabel::New(0), results)?;
    Ok(pieces)
}

fn switch_blocks(
    alloc: Global,
    results: &[(u32, TypeTree)],
    index: u32,
    numbers: &[i64],
    blocks: &[Alone],
) -> Result<Option<PieceList>, NoMemory>
    ensures { IfOk result (λ o. o ≡ blocks_cut results.now index numbers.now (Some blocks.now)) }
{
    let [default, cases @ ..] = blocks else {
        return Ok(None);
    };
    if numbers.len() != cases.len() {
        return Ok(None);
    }
    let pieces = switch_pieces(alloc, results, index, numbers, default, cases)?;
    Ok(Some(pieces))
}

/// The numbers of the cases.
#[tactic(auto, using(row_code::proofs::Opens::attr_opens))]
fn case_numbers(value: &AttrTree) -> Option<&[i64]>
    ensures { option_map (λ ns. ns.now) result ≡ numbers_in (Some (plain_attr value.now)) }
{
    match value {
        AttrTree::Ints(_, numbers) => Some(numbers.as_slice()),
        AttrTree::Unit
        | AttrTree::Int(_, _)
        | AttrTree::Str(_)
        | AttrTree::List(_)
        | AttrTree::Dict(_)
        | AttrTree::OfType(_)
        | AttrTree::Symbol(_)
        | AttrTree::Dialect(_, _) => None,
    }
}

pub fn switch_cut(alloc: Global, op: &OpSketch) -> Result<Option<PieceList>, NoMemory>
    ensures { IfOk result (λ o. o ≡ switch_trees op.now.results op.now.operands (numbers_in (entry_of (codes "cases") (plain_entries op.now.props))) op.now.regions op.now.successors) }
{
    if op.successors != 0 {
        return Ok(None);
    }
    let [index] = op.operands.as_slice() else {
        return Ok(None);
    };
    let Some(value) = find(b"cases", op.props.as_slice()) else {
        return Ok(None);
    };
    let Some(numbers) = case_numbers(value) else {
        return Ok(None);
    };
    let Some(blocks) = all_alone(alloc, op.regions.as_slice())? else {
        return Ok(None);
    };
    let pieces = switch_blocks(
        alloc,
        op.results.as_slice(),
        *index,
        numbers,
        blocks.as_slice(),
    )?;
    Ok(pieces)
}
