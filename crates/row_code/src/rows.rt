//! A set of rows.

ghost use Rattle.std.specs.Prelude.{◌≡◌, IfOk, map};

use crate::shape::ShapeTree;
use conversion_model::TemplateTree;
use legal_graph::PatternInfo;
use std::alloc::Global;
use tree_model::NoMemory;

/// A set of patterns.
pub trait Rows {
    ghost use Rattle.std.specs.Prelude.{◌≡◌, List, IfOk, map, slice_get};
    ghost use Rattle.conversion_model.specs.Rows.{Pattern};
    ghost use Rattle.legal_graph.specs.Graphs.{info_of};
    ghost use Rattle.row_code.specs.Shapes.{shape_of, tree_or_none};
    ghost use Rattle.row_code.specs.Straight.{straight_at};

    // The patterns in the order of the table.
    ghost table: { Self → List Pattern };

    /// What each pattern says of itself.
    fn infos(&self) -> &[PatternInfo]
        ensures { result.now ≡ map info_of (table self.now) };

    /// The template of the straight row at a place, none where the row is undefined or where no straight row stands.
    fn line(
        &self,
        alloc: Global,
        bits: u32,
        at: u32,
        shape: &ShapeTree,
    ) -> Result<Option<TemplateTree>, NoMemory>
        ensures { IfOk result (λ t. t ≡ tree_or_none (straight_at bits (slice_get (table self.now) at) (shape_of shape.now))) };
}
