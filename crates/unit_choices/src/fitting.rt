//! Whether an operation has a shape, seen without making its own.

ghost use Rattle.std.specs.Prelude.{◌≡◌, IsTrue, map};
ghost use Rattle.plain_tree.specs.Types.{plain_type, Void};
ghost use Rattle.plain_tree.specs.Ops.{plain_op};
ghost use Rattle.conversion_model.specs.Targets.{shape_of as shape_in};
ghost use Rattle.row_code.specs.Shapes.{shape_of};
ghost use Rattle.value_types.specs.Views.{type_at};

use row_code::ShapeTree;
use tree_model::{Name, OpTree, TypeTree, same_dict, same_type};
use value_types::ValueTypes;

fn same_name(a: &Name, b: &Name) -> bool
    ensures { IsTrue result → a.now ≡ b.now }
{
    a == b
}

#[tactic(auto, using(row_code::proofs::Opens::type_opens))]
fn is_void(t: &TypeTree) -> bool
    ensures { IsTrue result → plain_type t.now ≡ Void }
{
    match t {
        TypeTree::Void => true,
        _ => false,
    }
}

/// Whether a value has that type.
fn has_type(types: &ValueTypes<'_>, number: u32, t: &TypeTree) -> bool
    ensures { IsTrue result → type_at types.now number ≡ plain_type t.now }
{
    match types.by_number.get(&number) {
        Some(found) => same_type(found, t),
        None => is_void(t),
    }
}

/// Whether the values with these numbers have these types.
fn have_types(types: &ValueTypes<'_>, operands: &[u32], expected: &[TypeTree]) -> bool
    ensures { IsTrue result → map (type_at types.now) operands.now ≡ map plain_type expected.now }
{
    if operands.len() != expected.len() {
        return false;
    }
    'each: for index in 0..operands.len() {
        if !has_type(types, operands[index], &expected[index]) {
            return false;
        }
    }
    true
}

/// Whether a value is of that type.
fn is_of(value: &(u32, TypeTree), t: &TypeTree) -> bool
    ensures { IsTrue result → plain_type value.now.1 ≡ plain_type t.now }
{
    same_type(&value.1, t)
}

/// Whether these values are of these types.
fn are_of(results: &[(u32, TypeTree)], expected: &[TypeTree]) -> bool
    ensures { IsTrue result → map (λ v. plain_type v.1) results.now ≡ map plain_type expected.now }
{
    if results.len() != expected.len() {
        return false;
    }
    'each: for index in 0..results.len() {
        if !is_of(&results[index], &expected[index]) {
            return false;
        }
    }
    true
}

/// Whether an operation has a shape, where its values have these types.
#[tactic(auto, using(unit_views::proofs::Layers::layers))]
pub fn fits(types: &ValueTypes<'_>, op: &OpTree, shape: &ShapeTree) -> bool
    ensures { IsTrue result → shape_of shape.now ≡ shape_in (type_at types.now) (plain_op op.now) }
{
    if !same_name(&op.name, &shape.name) {
        return false;
    }
    if op.successors.len() != shape.successors as usize {
        return false;
    }
    if op.regions.len() != shape.regions as usize {
        return false;
    }
    if !are_of(op.results.as_slice(), shape.results.as_slice()) {
        return false;
    }
    if !have_types(types, op.operands.as_slice(), shape.operands.as_slice()) {
        return false;
    }
    if !same_dict(op.props.as_slice(), shape.props.as_slice()) {
        return false;
    }
    same_dict(op.attrs.as_slice(), shape.attrs.as_slice())
}
