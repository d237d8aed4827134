//! Products of cuts.

ghost use Rattle.std.specs.Prelude.{◌≡◌, ◌++◌, ◌∷◌, IfOk, OnOk, [], length, pos};
ghost use Rattle.plain_tree.specs.Attrs.{plain_entries};
ghost use Rattle.pattern_model.specs.Drafts.{sizes as size_props};
ghost use Rattle.cut_code.specs.declared.pieces.CutLabel.TheVariants as labels;
ghost use Rattle.cut_code.specs.declared.pieces.PieceTree.TheVariants as pieces_of_trees;
ghost use Rattle.scf_rows.specs.Trees.{branch_tree, compare_tree, conditional_tree, old_values as olds, product_tree, stand_trees, yields_trees};

use crate::regions::Alone;
use cut_code::{CutLabel, CutValue, PieceList, PieceTree, ProductTree};
use row_code::predicate;
use sqlite_items::Items;
use std::alloc::{AllocError, Global};
use tree_model::{
    AttrTree, DictTree, Name, NoMemory, TypeTree, ValueList, copy_type, copy_values, entry, one,
};

/// A product, where new values may be among its operands that have these types.
#[tactic(auto, using(row_code::proofs::Opens::trips))]
pub fn product(
    alloc: Global,
    known: ValueList,
    name: &[u8],
    results: ValueList,
    operands: Items<CutValue>,
    props: DictTree,
    successors: &[CutLabel],
) -> Result<PieceTree, NoMemory>
    ensures { IfOk result (λ p. p ≡ product_tree known name.now results operands (plain_entries props) successors.now) }
{
    let name = Name::from_slice(alloc, name)?;
    let successors = Items::from_slice(alloc, successors)?;
    Ok(PieceTree::Product(ProductTree {
        name,
        results,
        operands,
        props,
        successors,
        known,
    }))
}

/// Values that are there.
pub fn old_values(alloc: Global, ids: &[u32]) -> Result<Items<CutValue>, NoMemory>
    ensures { IfOk result (λ vs. vs ≡ olds ids.now) }
{
    let mut values = Items::new(alloc);
    'each: for id in ids {
        values.push(CutValue::Old(*id))?;
    }
    Ok(values)
}

/// A value in front of values that are there.
pub fn values_behind(
    alloc: Global,
    first: CutValue,
    ids: &[u32],
) -> Result<Items<CutValue>, NoMemory>
    ensures { IfOk result (λ vs. vs ≡ first ∷ olds ids.now) }
{
    let mut values = one(alloc, first)?;
    let more = old_values(alloc, ids)?;
    values.append(more)?;
    Ok(values)
}

pub fn branch(
    alloc: Global,
    known: ValueList,
    passed: Items<CutValue>,
    to: CutLabel,
) -> Result<PieceTree, NoMemory>
    ensures { IfOk result (λ p. p ≡ branch_tree known passed to) }
{
    let nothing = Items::new(alloc);
    let piece = product(
        alloc,
        known,
        b"cf.br",
        nothing,
        passed,
        Items::new(alloc),
        &[to],
    )?;
    Ok(piece)
}

/// A branch that passes values that are there, where no new value is known.
pub fn plain_branch(alloc: Global, ids: &[u32], to: CutLabel) -> Result<PieceTree, NoMemory>
    ensures { IfOk result (λ p. p ≡ branch_tree [] (olds ids.now) to) }
{
    let passed = old_values(alloc, ids)?;
    let piece = branch(alloc, Items::new(alloc), passed, to)?;
    Ok(piece)
}

#[tactic(auto, using(row_code::proofs::Opens::attr_opens))]
fn sizes(alloc: Global, count: usize) -> Result<DictTree, NoMemory>
    ensures { IfOk result (λ d. plain_entries d ≡ size_props (pos 1 ∷ pos count ∷ pos 0 ∷ [])) }
{
    let Ok(count) = i64::try_from(count) else {
        return Err(AllocError);
    };
    let counts = Items::from_slice(alloc, &[1, count, 0])?;
    let props = entry(alloc, b"operandSegmentSizes", AttrTree::Ints(32, counts))?;
    Ok(props)
}

/// A branch on a value, with values passed to the first successor.
pub fn conditional(
    alloc: Global,
    known: ValueList,
    on: CutValue,
    ids: &[u32],
    to: CutLabel,
    other: CutLabel,
) -> Result<PieceTree, NoMemory>
    ensures { IfOk result (λ p. p ≡ conditional_tree known on (olds ids.now) to other) }
{
    let props = sizes(alloc, ids.len())?;
    let operands = values_behind(alloc, on, ids)?;
    let successors = [to, other];
    let nothing = Items::new(alloc);
    let piece = product(
        alloc,
        known,
        b"cf.cond_br",
        nothing,
        operands,
        props,
        &successors,
    )?;
    Ok(piece)
}

/// A comparison, whose bit is the new value at that place.
pub fn compare(
    alloc: Global,
    known: ValueList,
    place: u32,
    x: CutValue,
    y: CutValue,
    number: u32,
) -> Result<PieceTree, NoMemory>
    ensures { IfOk result (λ p. p ≡ compare_tree known place x y number) }
{
    let props = predicate(alloc, number)?;
    let operands = Items::from_slice(alloc, &[x, y])?;
    let results = one(alloc, (place, TypeTree::Int(1)))?;
    let piece = product(alloc, known, b"arith.cmpi", results, operands, props, &[])?;
    Ok(piece)
}

/// A block opens.
pub fn open(
    pieces: &mut PieceList,
    alloc: Global,
    label: CutLabel,
    args: &[(u32, TypeTree)],
) -> Result<(), NoMemory>
    ensures { OnOk result (pieces.new ≡ pieces.old ++ pieces_of_trees.Opens label args.now ∷ []) }
{
    let args = copy_values(alloc, args)?;
    pieces.push(PieceTree::Opens(label, args))?;
    Ok(())
}

/// The block of a region that holds its operations, and the branch that stands for its yield.
pub fn push_yields(
    pieces: &mut PieceList,
    alloc: Global,
    region: u32,
    block: &Alone,
) -> Result<(), NoMemory>
    ensures { OnOk result (pieces.new ≡ pieces.old ++ yields_trees (labels.New 0) region block.now) }
{
    open(
        pieces,
        alloc,
        CutLabel::Old(block.label),
        block.args.as_slice(),
    )?;
    pieces.push(PieceTree::Held(region, 0))?;
    let end = plain_branch(alloc, block.passed.as_slice(), CutLabel::New(0))?;
    pieces.push(end)?;
    Ok(())
}

fn push_stand(
    pieces: &mut PieceList,
    alloc: Global,
    old: &(u32, TypeTree),
    value: u32,
) -> Result<(), NoMemory>
    ensures { OnOk result (pieces.new ≡ pieces.old ++ pieces_of_trees.Stands old.now.0 old.now.1 value ∷ []) }
{
    let t = copy_type(alloc, &old.1)?;
    pieces.push(PieceTree::Stands(old.0, t, value))?;
    Ok(())
}

/// Each result stands for the value at its place.
pub fn push_stands(
    pieces: &mut PieceList,
    alloc: Global,
    results: &[(u32, TypeTree)],
    values: &[u32],
) -> Result<(), NoMemory>
    ensures { OnOk result (pieces.new ≡ pieces.old ++ stand_trees results.now values.now) }
{
    let count = results.len().min(values.len());
    'each: for place in 0..count {
        push_stand(pieces, alloc, &results[place], values[place])?;
    }
    Ok(())
}
