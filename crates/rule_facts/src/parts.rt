//! Parts of types at paths.
#![tactic(auto, using(crate::proofs::AttrOpens::opens))]

ghost use Rattle.std.specs.Prelude.{◌≡◌, [], ◌∷◌};
ghost use Rattle.std.specs.Option.{option_copied, option_map};
ghost use Rattle.plain_tree.specs.Types.{plain_type};
ghost use Rattle.plain_tree.specs.Attrs.{plain_attr, plain_entries};
ghost use Rattle.rule_model.specs.Forms as model;
ghost use Rattle.value_types.specs.Views.{plain_types};
ghost use Rattle.rule_facts.specs.Views.{walked};

use crate::entries::entry;
use sqlite_items::at;
use tree_model::{AttrTree, Name, TypeTree};

#[tactic(auto, using(crate::proofs::AttrOpens::type_opens))]
/// The field or place of this number in a type.
fn part_of(number: u64, t: &TypeTree) -> Option<&TypeTree>
    ensures { option_map plain_type (option_copied result) ≡ model.part_of number (plain_type t.now) }
{
    match t {
        TypeTree::Struct(fields) => at(fields.as_slice(), number as usize),
        TypeTree::Array(length, element) => {
            if number < *length {
                Some(element.get())
            } else {
                None
            }
        }
        TypeTree::Int(_)
        | TypeTree::Index
        | TypeTree::Memref(_, _)
        | TypeTree::Func(_, _)
        | TypeTree::Ptr
        | TypeTree::Void
        | TypeTree::LlvmFunc(_, _) => None,
    }
}

fn part_from(number: i64, t: &TypeTree) -> Option<&TypeTree>
    ensures { option_map plain_type (option_copied result) ≡ walked (number ∷ []) (plain_type t.now) }
{
    if number >= 0 {
        part_of(number as u64, t)
    } else {
        None
    }
}

/// The part at the path of these numbers.
fn walk<'a>(numbers: &[i64], t: &'a TypeTree) -> Option<&'a TypeTree>
    ensures { option_map plain_type (option_copied result) ≡ walked numbers.now (plain_type t.now) }
{
    let mut part = t;
    for number in numbers {
        match part_from(*number, part) {
            Some(inner) => part = inner,
            None => return None,
        }
    }
    Some(part)
}

/// The part of a type at a path of one number or more.
pub fn part_by<'a>(t: &'a TypeTree, a: &AttrTree) -> Option<&'a TypeTree>
    ensures { option_map plain_type (option_copied result) ≡ model.part_by (plain_type t.now) (plain_attr a.now) }
{
    match a {
        AttrTree::Ints(width, numbers) => {
            if *width == 64 && !numbers.is_empty() {
                walk(numbers.as_slice(), t)
            } else {
                None
            }
        }
        AttrTree::Unit
        | AttrTree::Int(_, _)
        | AttrTree::Str(_)
        | AttrTree::List(_)
        | AttrTree::Dict(_)
        | AttrTree::OfType(_)
        | AttrTree::Symbol(_)
        | AttrTree::Dialect(_, _) => None,
    }
}

/// The part of the first operand's type that the operation names.
pub fn part_in<'a>(props: &[(Name, AttrTree)], operands: &[&'a TypeTree]) -> Option<&'a TypeTree>
    ensures { option_map plain_type (option_copied result) ≡ model.part_in (plain_entries props.now) (plain_types operands.now) }
{
    match operands {
        [] => None,
        [t, ..] => match entry(b"position", props) {
            Some(a) => part_by(t, a),
            None => None,
        },
    }
}
