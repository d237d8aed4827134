//! Sets of patterns that cut blocks.

use crate::pieces::PieceList;
use crate::sketch::OpSketch;
use row_code::Rows;
use std::alloc::Global;
use tree_model::NoMemory;

/// A set of patterns some of which cut the block behind an operation.
pub trait Cuts: Rows {
    ghost use Rattle.std.specs.Prelude.{◌≡◌, ℕ, IfOk, slice_get};
    ghost use Rattle.plain_tree.specs.Types.{PlainType};
    ghost use Rattle.plain_tree.specs.Ops.{Op};
    ghost use Rattle.conversion_model.specs.Rows.{Numbers};
    ghost use Rattle.cut_code.specs.Pieces.{cutting_at, pieces_or_none};
    ghost use Rattle.cut_code.specs.Sketches.{sketch_of, sketch_view};

    /// The pieces of the cutting row at a place, for each operation that has this sketch; none where the row is undefined or
    /// where no cutting row stands.
    fn cut(
        &self,
        alloc: Global,
        bits: u32,
        at: u32,
        sketch: &OpSketch,
    ) -> Result<Option<PieceList>, NoMemory>
        ensures { (o : Op) → sketch_of o ≡ sketch_view sketch.now → (new : Numbers) → (type_of : ℕ → PlainType) → IfOk result (λ ps. pieces_or_none new type_of ps ≡ cutting_at bits (slice_get (Self.table self.now) at) new type_of o) };
}
