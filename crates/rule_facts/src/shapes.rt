//! The shape of an operation by its name.

ghost use Rattle.std.specs.Prelude.{◌≡◌};
ghost use Rattle.op_catalog.specs.Table.{shape_of};

use op_catalog::row;
use rule_model::Shape;
use tree_model::Name;

/// The shape of the operation of this name, none where it is unregistered.
pub fn shape_of(name: &Name) -> Option<Shape>
    ensures { result ≡ shape_of name.now }
{
    match row(name) {
        Some(found) => Some(found.shape()),
        None => None,
    }
}
