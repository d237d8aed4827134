//! Frames: what functions become.

use conversion_model::TemplateTree;
use row_code::{Rows, ShapeTree};
use sqlite_items::Items;
use std::alloc::Global;
use tree_model::{DictTree, Name, NoMemory, TypeList};

/// An old argument of a function, by the types of the new parameters that it takes, and what gives it from them.
#[derive(Debug, Drop)]
pub struct PartTree {
    pub takes: TypeList,
    pub gives: TemplateTree,
}

/// Parts in order.
pub type PartList = Items<PartTree>;

/// What a function becomes: its new name and dictionaries, and the old arguments of its first block.
#[derive(Debug, Drop)]
pub struct FrameTree {
    pub name: Name,
    pub props: DictTree,
    pub attrs: DictTree,
    pub entry: PartList,
}

/// A set of patterns some of which frame functions.
pub trait Frames: Rows {
    ghost use Rattle.std.specs.Prelude.{◌≡◌, IfOk, slice_get};
    ghost use Rattle.cut_code.specs.Frames.{frame_or_none, framing_at};
    ghost use Rattle.row_code.specs.Shapes.{shape_of};

    /// The frame of the framing row at a place, none where the row is undefined or where no framing row stands.
    fn frame(
        &self,
        alloc: Global,
        bits: u32,
        at: u32,
        shape: &ShapeTree,
    ) -> Result<Option<FrameTree>, NoMemory>
        ensures { IfOk result (λ f. f ≡ frame_or_none (framing_at bits (slice_get (Self.table self.now) at) (shape_of shape.now))) };
}
