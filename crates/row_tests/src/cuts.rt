//! Cases of scf_lowering, and pieces as text: values that are there are `%0`, `%1`, .., new ones `%new0`, `%new1`, .. by their
//! places, and labels likewise.

use crate::rows::put_place;
use crate::shapes::{Note, Notes, Ty, dict, values};
use crate::texts::{put_comma, put_numbered, put_props};
use cut_code::{
    BlockSketch, CutLabel, CutValue, Cuts, OpSketch, PieceTree, ProductTree, RegionSketch,
};
use sqlite_items::Items;
use std::alloc::Global;
use tree_model::{Bytes, NoMemory, TypeTree};
use tree_text::put_type;

/// A block: its label, its arguments, and what its yield passes.
#[derive(Clone, Copy, Debug)]
pub struct Block {
    label: u32,
    args: &'static [(u32, Ty)],
    passed: Option<&'static [u32]>,
}

/// An operation with regions.
#[derive(Clone, Copy, Debug)]
pub struct Cut {
    at: u32,
    about: &'static [u8],
    results: &'static [(u32, Ty)],
    operands: &'static [u32],
    props: Notes,
    regions: &'static [&'static [Block]],
}

const I32: Ty = Ty::Int(32);

const N: Ty = Ty::Index;

macro_rules! cut {
    ($at:literal, $about:literal, $results:expr, $operands:expr, $props:expr, $regions:expr) => {
        Cut {
            at: $at,
            about: $about,
            results: $results,
            operands: $operands,
            props: $props,
            regions: $regions,
        }
    };
}

macro_rules! block {
    ($label:literal, $args:expr, $passed:expr) => {
        Block {
            label: $label,
            args: $args,
            passed: $passed,
        }
    };
}

const YIELDS: &[Block] = &[block!(10, &[], Some(&[5]))];

const OTHER: &[Block] = &[block!(11, &[], Some(&[6]))];

const THIRD: &[Block] = &[block!(12, &[], Some(&[8]))];

const ENDS: &[Block] = &[block!(10, &[], Some(&[]))];

const LOOP: &[Block] = &[block!(10, &[(7, N), (8, I32)], Some(&[9]))];

const BEFORE: &[Block] = &[block!(10, &[(7, I32)], Some(&[5, 7, 6]))];

const AFTER: &[Block] = &[block!(11, &[(8, I32), (9, N)], Some(&[8]))];

const HELD: &[Block] = &[
    block!(10, &[], None),
    block!(11, &[(7, I32)], Some(&[7])),
    block!(12, &[], Some(&[5])),
];

const CASES: Notes = &[(b"cases", Note::Numbers(64, &[3, -4]))];

const ONE_CASE: Notes = &[(b"cases", Note::Numbers(64, &[3]))];

const NO_CASES: Notes = &[(b"cases", Note::Numbers(64, &[]))];

/// Cases of scf_lowering.
pub const SCF: &[Cut] = &[
    cut!(
        0,
        b"scf.if with else",
        &[(3, I32)],
        &[1],
        &[],
        &[YIELDS, OTHER]
    ),
    cut!(0, b"scf.if without else", &[], &[1], &[], &[ENDS, &[]]),
    cut!(
        0,
        b"scf.if of two conditions",
        &[],
        &[1, 2],
        &[],
        &[ENDS, &[]]
    ),
    cut!(
        1,
        b"scf.for with an initial value",
        &[(4, I32)],
        &[0, 1, 2, 3],
        &[],
        &[LOOP]
    ),
    cut!(1, b"scf.for without a step", &[], &[0, 1], &[], &[LOOP]),
    cut!(
        2,
        b"scf.while",
        &[(3, I32), (4, N)],
        &[1],
        &[],
        &[BEFORE, AFTER]
    ),
    cut!(
        2,
        b"scf.while without a condition",
        &[],
        &[],
        &[],
        &[ENDS, ENDS]
    ),
    cut!(
        3,
        b"scf.index_switch of two cases",
        &[(3, I32)],
        &[1],
        CASES,
        &[YIELDS, OTHER, THIRD]
    ),
    cut!(
        3,
        b"scf.index_switch of one case",
        &[(3, I32)],
        &[1],
        ONE_CASE,
        &[YIELDS, OTHER]
    ),
    cut!(
        3,
        b"scf.index_switch without cases",
        &[(3, I32)],
        &[1],
        NO_CASES,
        &[YIELDS]
    ),
    cut!(
        3,
        b"scf.index_switch of too few regions",
        &[],
        &[1],
        CASES,
        &[ENDS, ENDS]
    ),
    cut!(4, b"scf.execute_region", &[(3, I32)], &[], &[], &[HELD]),
    cut!(
        4,
        b"scf.execute_region without blocks",
        &[],
        &[],
        &[],
        &[&[]]
    ),
];

fn passed_or_none(alloc: Global, passed: Option<&[u32]>) -> Result<Option<Items<u32>>, NoMemory> {
    match passed {
        Some(ids) => Ok(Some(Items::from_slice(alloc, ids)?)),
        None => Ok(None),
    }
}

fn region_sketch(alloc: Global, blocks: &[Block]) -> Result<RegionSketch, NoMemory> {
    let mut all = Items::new(alloc);
    for block in blocks {
        let args = values(alloc, block.args)?;
        let passed = passed_or_none(alloc, block.passed)?;
        all.push(BlockSketch {
            label: block.label,
            args,
            passed,
        })?;
    }
    Ok(RegionSketch { blocks: all })
}

fn sketch(alloc: Global, case: &Cut) -> Result<OpSketch, NoMemory> {
    let mut regions = Items::new(alloc);
    for blocks in case.regions {
        regions.push(region_sketch(alloc, blocks)?)?;
    }
    let results = values(alloc, case.results)?;
    let props = dict(alloc, case.props)?;
    Ok(OpSketch {
        results,
        operands: Items::from_slice(alloc, case.operands)?,
        props,
        regions,
        successors: 0,
    })
}

fn put_label(out: &mut Bytes, label: CutLabel) -> Result<(), NoMemory> {
    match label {
        CutLabel::Old(number) => put_numbered(out, b"^", number),
        CutLabel::New(place) => put_numbered(out, b"^new", place),
    }
}

fn put_value(out: &mut Bytes, value: CutValue) -> Result<(), NoMemory> {
    match value {
        CutValue::Old(number) => put_numbered(out, b"%", number),
        CutValue::New(place) => put_numbered(out, b"%new", place),
    }
}

fn put_args(out: &mut Bytes, sign: &[u8], args: &[(u32, TypeTree)]) -> Result<(), NoMemory> {
    for (place, (number, t)) in args.iter().enumerate() {
        put_comma(out, place)?;
        put_numbered(out, sign, *number)?;
        out.put(b": ")?;
        put_type(out, t)?;
    }
    Ok(())
}

fn put_operands(out: &mut Bytes, operands: &[CutValue]) -> Result<(), NoMemory> {
    for (place, value) in operands.iter().enumerate() {
        out.put(if place == 0 { b" " } else { b", " })?;
        put_value(out, *value)?;
    }
    Ok(())
}

fn put_successors(out: &mut Bytes, labels: &[CutLabel]) -> Result<(), NoMemory> {
    for label in labels {
        out.put(b" ")?;
        put_label(out, *label)?;
    }
    Ok(())
}

fn put_product(out: &mut Bytes, product: &ProductTree) -> Result<(), NoMemory> {
    put_args(out, b"%new", product.results.as_slice())?;
    if !product.results.is_empty() {
        out.put(b" = ")?;
    }
    out.put(product.name.as_slice())?;
    put_operands(out, product.operands.as_slice())?;
    put_successors(out, product.successors.as_slice())?;
    put_props(out, product.props.as_slice())
}

fn put_opened(out: &mut Bytes, label: CutLabel, args: &[(u32, TypeTree)]) -> Result<(), NoMemory> {
    put_label(out, label)?;
    out.put(b"(")?;
    put_args(out, b"%", args)?;
    out.put(b"):")
}

fn put_held(out: &mut Bytes, region: u32, block: u32) -> Result<(), NoMemory> {
    put_numbered(out, b"operations of region ", region)?;
    put_numbered(out, b", block ", block)
}

fn put_stand(out: &mut Bytes, number: u32, t: &TypeTree, value: u32) -> Result<(), NoMemory> {
    put_numbered(out, b"%", number)?;
    out.put(b": ")?;
    put_type(out, t)?;
    put_numbered(out, b" stands for %", value)
}

fn put_piece(out: &mut Bytes, piece: &PieceTree) -> Result<(), NoMemory> {
    out.put(b"  ")?;
    match piece {
        PieceTree::Product(product) => put_product(out, product)?,
        PieceTree::Opens(label, args) => put_opened(out, *label, args.as_slice())?,
        PieceTree::Held(region, block) => put_held(out, *region, *block)?,
        PieceTree::Stands(number, t, value) => put_stand(out, *number, t, *value)?,
    }
    out.put(b"\n")
}

fn put_pieces(out: &mut Bytes, pieces: &[PieceTree]) -> Result<(), NoMemory> {
    for piece in pieces {
        put_piece(out, piece)?;
    }
    Ok(())
}

fn put_cut<C: Cuts>(
    alloc: Global,
    out: &mut Bytes,
    title: &[u8],
    set: &C,
    case: &Cut,
) -> Result<(), NoMemory> {
    let sketch = sketch(alloc, case)?;
    put_place(out, title, set, case.at, 64)?;
    out.put(case.about)?;
    out.put(b"\n")?;
    match set.cut(alloc, 64, case.at, &sketch)? {
        Some(pieces) => put_pieces(out, pieces.as_slice()),
        None => out.put(b"  undefined\n"),
    }
}

/// The pieces of cutting rows.
pub fn put_cuts<C: Cuts>(
    alloc: Global,
    out: &mut Bytes,
    title: &[u8],
    set: &C,
    cases: &[Cut],
) -> Result<(), NoMemory> {
    for case in cases {
        put_cut(alloc, out, title, set, case)?;
    }
    Ok(())
}
