//! Shapes: what rows and targets look at.

ghost use Rattle.std.specs.Prelude.{◌≡◌};
ghost use Rattle.pattern_model.specs.Drafts.{is_plain as plain};
ghost use Rattle.row_code.specs.Shapes.{shape_of};

use tree_model::{DictTree, Name, TypeList};

/// An operation without its numbers.
#[derive(Debug, Drop)]
pub struct ShapeTree {
    pub name: Name,
    /// The types of the operands, and those of the results.
    pub operands: TypeList,
    pub results: TypeList,
    pub props: DictTree,
    pub attrs: DictTree,
    /// How many successors and how many regions there are.
    pub successors: u32,
    pub regions: u32,
}

/// Whether an operation takes so many operands, gives so many results, and has neither successors nor regions.
pub fn is_plain(operands: usize, results: usize, shape: &ShapeTree) -> bool
    ensures { result ≡ plain operands results (shape_of shape.now) }
{
    shape.operands.len() == operands
        && shape.results.len() == results
        && shape.successors == 0
        && shape.regions == 0
}
