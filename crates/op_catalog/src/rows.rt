//! The rows of the table of operations.

ghost use Rattle.std.specs.Prelude.{◌≡◌, get_or, IfSome, Some};
ghost use Rattle.op_catalog.specs.Table.{place_of, shape_at, shape_of};
ghost use Rattle.rule_model.specs.Rows.{ends_block};
ghost use Rattle.rule_model.specs.declared.shapes.Shape.TheVariants.{Module};

use rule_model::Shape;
use std::marker::Model;
use tree_model::Name;

// The shapes of the operations, in the order of their names in tree_model.
const SHAPES: &[Shape] = &[
    Shape::Module,
    Shape::Recast,
    Shape::FuncFunction,
    Shape::FuncCall,
    Shape::FuncReturn,
    Shape::NumberConstant,
    Shape::FlaggedNumbers,
    Shape::FlaggedNumbers,
    Shape::FlaggedNumbers,
    Shape::FlaggedNumbers,
    Shape::TwoNumbers,
    Shape::TwoNumbers,
    Shape::TwoNumbers,
    Shape::TwoNumbers,
    Shape::TwoNumbers,
    Shape::TwoNumbers,
    Shape::TwoNumbers,
    Shape::TwoNumbers,
    Shape::TwoNumbers,
    Shape::TwoNumbers,
    Shape::TwoNumbers,
    Shape::TwoNumbers,
    Shape::TwoNumbers,
    Shape::TwoNumbers,
    Shape::TwoNumbers,
    Shape::TwoNumbers,
    Shape::CompareNumbers,
    Shape::SelectValues,
    Shape::Widen,
    Shape::Widen,
    Shape::NarrowNumber,
    Shape::IndexCast,
    Shape::IndexCast,
    Shape::Branch,
    Shape::BranchOn,
    Shape::If,
    Shape::For,
    Shape::While,
    Shape::Switch,
    Shape::Execute,
    Shape::Yield,
    Shape::Condition,
    Shape::Allocate,
    Shape::Deallocate,
    Shape::LoadElement,
    Shape::StoreElement,
    Shape::TakeSize,
    Shape::TakeRank,
    Shape::MemrefCast,
    Shape::LlvmFunction,
    Shape::LlvmCall,
    Shape::LlvmReturn,
    Shape::Branch,
    Shape::BranchOn,
    Shape::IntegerConstant,
    Shape::Unset,
    Shape::FlaggedIntegers,
    Shape::FlaggedIntegers,
    Shape::FlaggedIntegers,
    Shape::FlaggedIntegers,
    Shape::TwoIntegers,
    Shape::TwoIntegers,
    Shape::TwoIntegers,
    Shape::TwoIntegers,
    Shape::TwoIntegers,
    Shape::TwoIntegers,
    Shape::TwoIntegers,
    Shape::TwoIntegers,
    Shape::TwoIntegers,
    Shape::CompareIntegers,
    Shape::SelectOwn,
    Shape::Widen,
    Shape::Widen,
    Shape::NarrowInteger,
    Shape::TakePart,
    Shape::PutPart,
    Shape::MovePointer,
    Shape::LoadInteger,
    Shape::StoreInteger,
];

// How many operations there are. Their names are the first of the known ones.
const COUNT: u8 = 79;

/// A row of the table of operations, by its place, as which contracts see it.
#[derive(Clone, Copy, Debug)]
pub struct RowId {
    place: u8,
}

impl Model for RowId {
    ghost use Rattle.std.specs.Prelude.{ℕ, ◌<◌};
    ghost use Rattle.std.specs.Coded.{coded_ℕ};

    ghost Value = { ℕ };

    ghost coded = { coded_ℕ };

    ghost view = { λ r. r.place };

    ghost inverse = { λ n. record { place = n } };

    ghost invariant = { λ r. r.place < 79 };
}

/// The row of the operation of this name, none where there is no such operation.
pub fn row(name: &Name) -> Option<RowId>
    ensures found { result ≡ place_of name.now }
    ensures shape { IfSome result (λ r. shape_of name.now ≡ Some (shape_at r)) }
{
    match name.number() {
        Some(place) => {
            if place < COUNT {
                Some(RowId { place })
            } else {
                None
            }
        }
        None => None,
    }
}

fn shape_in(table: &[Shape], place: u8) -> Shape
    ensures { result ≡ get_or table.now place Module }
{
    match table.get(usize::from(place)) {
        Some(shape) => *shape,
        None => Shape::Module,
    }
}

#[tactic(auto, unfolding(crate::specs::Table::shape_at))]
impl RowId {
    /// What operations of this row take, give and hold.
    pub fn shape(self) -> Shape
        ensures { result ≡ shape_at self }
    {
        shape_in(SHAPES, self.place)
    }
}

/// Whether the operations of this row end a block.
pub fn is_terminator(row: RowId) -> bool
    ensures { result ≡ ends_block (shape_at row) }
{
    matches!(
        row.shape(),
        Shape::FuncReturn
            | Shape::LlvmReturn
            | Shape::Branch
            | Shape::BranchOn
            | Shape::Yield
            | Shape::Condition
    )
}
