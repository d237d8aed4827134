//! Lines of the products among pieces.

ghost use Rattle.std.specs.Prelude.{◌≡◌, ◌∷◌, ℕ, List, IfOk, [], map};
ghost use Rattle.plain_tree.specs.Types.{plain_type};
ghost use Rattle.conversion_model.specs.Chosen.{chosen};
ghost use Rattle.conversion_target.specs.Targets.{target_of};
ghost use Rattle.row_code.specs.Shapes.{shape_of};
ghost use Rattle.value_types.specs.Views.{type_at};
ghost use Rattle.unit_choices.specs.Lines.{cut_type as type_in_cut, found_in, found_of, line_or_none, lines_in, lines_or_none, product_shape as shape_in_cut, type_known};
ghost use Rattle.unit_choices.specs.Orders.{InOrder};

use choice_code::{Pass, leaves_on};
use conversion_model::TemplateTree;
use cut_code::{CutValue, PieceTree, ProductTree};
use row_code::{Rows, ShapeTree};
use sqlite_items::Items;
use std::alloc::{AllocError, Global};
use tree_model::{NoMemory, TypeList, TypeTree, copy_dict, copy_type};
use unit_slots::LineList;
use unit_views::value_type;
use value_types::ValueTypes;

/// The type of the new value at a place, `void` where none is known.
#[tactic(auto, using(row_code::proofs::Opens::type_opens))]
fn known_type(alloc: Global, known: &[(u32, TypeTree)], place: u32) -> Result<TypeTree, NoMemory>
    ensures { IfOk result (λ t. plain_type t ≡ type_known known.now place) }
{
    'each: for value in known {
        if place == value.0 {
            let t = copy_type(alloc, &value.1)?;
            return Ok(t);
        }
    }
    Ok(TypeTree::Void)
}

fn cut_type(
    alloc: Global,
    types: &ValueTypes<'_>,
    known: &[(u32, TypeTree)],
    value: CutValue,
) -> Result<TypeTree, NoMemory>
    ensures { IfOk result (λ t. plain_type t ≡ type_in_cut (type_at types.now) known.now value) }
{
    match value {
        CutValue::Old(number) => value_type(alloc, types, number),
        CutValue::New(place) => known_type(alloc, known, place),
    }
}

fn operand_types(
    alloc: Global,
    types: &ValueTypes<'_>,
    known: &[(u32, TypeTree)],
    operands: &[CutValue],
) -> Result<TypeList, NoMemory>
    ensures { IfOk result (λ ts. map plain_type ts ≡ map (type_in_cut (type_at types.now) known.now) operands.now) }
{
    let mut all = Items::new(alloc);
    'each: for operand in operands {
        all.push(cut_type(alloc, types, known, *operand)?)?;
    }
    Ok(all)
}

fn result_types(alloc: Global, results: &[(u32, TypeTree)]) -> Result<TypeList, NoMemory>
    ensures { IfOk result (λ ts. map plain_type ts ≡ map (λ v. plain_type v.1) results.now) }
{
    let mut all = Items::new(alloc);
    'each: for value in results {
        all.push(copy_type(alloc, &value.1)?)?;
    }
    Ok(all)
}

fn product_shape(
    alloc: Global,
    types: &ValueTypes<'_>,
    product: &ProductTree,
) -> Result<ShapeTree, NoMemory>
    ensures { IfOk result (λ s. shape_of s ≡ shape_in_cut (type_at types.now) product.now) }
{
    let Ok(successors) = u32::try_from(product.successors.len()) else {
        return Err(AllocError);
    };
    let name = product.name.copy(alloc)?;
    let operands = operand_types(
        alloc,
        types,
        product.known.as_slice(),
        product.operands.as_slice(),
    )?;
    let results = result_types(alloc, product.results.as_slice())?;
    let props = copy_dict(alloc, product.props.as_slice())?;
    Ok(ShapeTree {
        name,
        operands,
        results,
        props,
        attrs: Items::new(alloc),
        successors,
        regions: 0,
    })
}

/// The leaves of a product, none where it is legal itself; nothing where it isn't legalised.
fn product_line<R: Rows>(
    alloc: Global,
    pass: &Pass<'_, R>,
    path: &[u32],
    shape: &ShapeTree,
) -> Result<Option<Option<TemplateTree>>, NoMemory>
    requires { InOrder pass.now.graph.now (target_of pass.now.target.now) (R.table pass.now.set.now) }
    ensures { IfOk result (λ l. line_or_none l ≡ found_of (target_of pass.now.target.now) (chosen pass.now.bits (target_of pass.now.target.now) (R.table pass.now.set.now) path.now) (shape_of shape.now)) }
{
    if pass.target.is_legal(shape) {
        return Ok(Some(None));
    }
    match leaves_on(alloc, pass, path, shape)? {
        Some(leaves) => Ok(Some(Some(leaves))),
        None => Ok(None),
    }
}

fn piece_line<R: Rows>(
    alloc: Global,
    pass: &Pass<'_, R>,
    types: &ValueTypes<'_>,
    path: &[u32],
    piece: &PieceTree,
) -> Result<Option<Option<TemplateTree>>, NoMemory>
    requires { InOrder pass.now.graph.now (target_of pass.now.target.now) (R.table pass.now.set.now) }
    ensures { IfOk result (λ l. line_or_none l ≡ found_in (target_of pass.now.target.now) (chosen pass.now.bits (target_of pass.now.target.now) (R.table pass.now.set.now) path.now) (type_at types.now) piece.now) }
{
    match piece {
        PieceTree::Product(product) => {
            let shape = product_shape(alloc, types, product)?;
            let line = product_line(alloc, pass, path, &shape)?;
            Ok(line)
        }
        PieceTree::Opens(_, _) | PieceTree::Held(_, _) | PieceTree::Stands(_, _, _) => {
            Ok(Some(None))
        }
    }
}

/// The lines of pieces by patterns that are not on the path, where each product is legalised.
pub fn lines<R: Rows>(
    alloc: Global,
    pass: &Pass<'_, R>,
    types: &ValueTypes<'_>,
    path: &[u32],
    pieces: &[PieceTree],
) -> Result<Option<LineList>, NoMemory>
    requires { InOrder pass.now.graph.now (target_of pass.now.target.now) (R.table pass.now.set.now) }
    ensures { IfOk result (λ ls. lines_or_none ls ≡ lines_in (target_of pass.now.target.now) (chosen pass.now.bits (target_of pass.now.target.now) (R.table pass.now.set.now) path.now) (type_at types.now) pieces.now) }
{
    let mut all = Items::new(alloc);
    'each: for piece in pieces {
        let Some(line) = piece_line(alloc, pass, types, path, piece)? else {
            return Ok(None);
        };
        all.push(line)?;
    }
    Ok(Some(all))
}
