//! What a mode demands.

ghost use Rattle.std.specs.Prelude.{◌≡◌};
ghost use Rattle.conversion_model.specs.Targets.{demanded, goes_with_holder as goes_with, is_illegal_at};
ghost use Rattle.conversion_target.specs.Targets.{target_of};
ghost use Rattle.row_code.specs.Shapes.{shape_of};
ghost use Rattle.unit_views.specs.Modes.{mode_of};

use conversion_target::{Legality, Target, holds};
use row_code::ShapeTree;
use tree_model::Name;

/// Which source operations a pass has to legalise.
#[derive(Clone, Copy, Debug)]
pub enum Mode {
    /// Those that are illegal, by their names or by a rule.
    Partial,
    /// All but the terminators that go with the operation that holds them.
    Full,
}

/// Whether operations of this name are terminators that go with the operation that holds them.
pub fn goes_with_holder(name: &Name) -> bool
    ensures { result ≡ goes_with name.now }
{
    name.as_slice() == b"scf.yield".as_slice() || name.as_slice() == b"scf.condition".as_slice()
}

fn is_illegal(target: &Target, shape: &ShapeTree) -> bool
    ensures { result ≡ is_illegal_at (shape_of shape.now) (target_of target.now shape.now.name) }
{
    match target.legality(&shape.name) {
        Legality::Legal => false,
        Legality::Dynamic(rule) => !holds(rule, shape),
        Legality::Illegal => true,
        Legality::Unknown => false,
    }
}

/// Whether the mode demands that an operation is legalised.
pub fn is_demanded(target: &Target, mode: Mode, shape: &ShapeTree) -> bool
    ensures { result ≡ demanded (mode_of mode) (target_of target.now) (shape_of shape.now) }
{
    match mode {
        Mode::Partial => is_illegal(target, shape),
        Mode::Full => !goes_with_holder(&shape.name),
    }
}
