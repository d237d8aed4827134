//! What a target asks of an operation with a dynamic name.

ghost use Rattle.std.specs.Prelude.{◌≡◌, ℕ, map};
ghost use Rattle.std.specs.List.{list_all, list_any};
ghost use Rattle.std.specs.Str.{bytes_eq};
ghost use Rattle.plain_tree.specs.Types.{plain_type};
ghost use Rattle.plain_tree.specs.ValueTypes.{is_own as owned};
ghost use Rattle.plain_tree.specs.Attrs.{plain_entries};
ghost use Rattle.conversion_model.specs.Targets.{holds as rule_holds};
ghost use Rattle.conversion_target.specs.Targets.{rule_of};
ghost use Rattle.row_code.specs.Shapes.{shape_of};

use row_code::ShapeTree;
use tree_model::{AttrTree, Name, TypeTree};
use type_table::is_own;

/// That every operand has an own type, or that the operation has an attribute (not a property) of that name.
#[derive(Debug, Drop)]
pub enum LegalRule {
    TypesOwn,
    HasAttr(Name),
}

fn are_own(types: &[TypeTree]) -> bool
    ensures { result ≡ list_all owned (map plain_type types.now) }
{
    'each: for t in types {
        if !is_own(t) {
            return false;
        }
    }
    true
}

fn has_entry(name: &Name, entries: &[(Name, AttrTree)]) -> bool
    ensures { result ≡ list_any (λ e. bytes_eq e.0 name.now) (plain_entries entries.now) }
{
    'each: for entry in entries {
        if entry.0 == *name {
            return true;
        }
    }
    false
}

/// Whether the rule holds of an operation.
pub fn holds(rule: &LegalRule, shape: &ShapeTree) -> bool
    ensures { result ≡ rule_holds (rule_of rule.now) (shape_of shape.now) }
{
    match rule {
        LegalRule::TypesOwn => are_own(shape.operands.as_slice()),
        LegalRule::HasAttr(name) => has_entry(name, shape.attrs.as_slice()),
    }
}
