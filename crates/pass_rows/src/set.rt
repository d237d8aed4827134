//! The rows of a pass.

ghost use Rattle.std.specs.Prelude.{◌≡◌, ℕ, IfOk, map, slice_get};
ghost use Rattle.legal_graph.specs.Graphs.{info_of};
ghost use Rattle.pattern_model.specs.PassTable.{pass_of, patterns_of};
ghost use Rattle.row_code.specs.Shapes.{shape_of, tree_or_none};
ghost use Rattle.row_code.specs.Straight.{straight_at};
ghost use Rattle.plain_tree.specs.Types.{PlainType};
ghost use Rattle.plain_tree.specs.Ops.{Op};
ghost use Rattle.conversion_model.specs.Rows.{Numbers};
ghost use Rattle.cut_code.specs.Frames.{frame_or_none, framing_at};
ghost use Rattle.cut_code.specs.Pieces.{cutting_at, pieces_or_none};
ghost use Rattle.cut_code.specs.Sketches.{sketch_of, sketch_view};
ghost use Rattle.pass_rows.specs.Parts.{patterns_at, patterns_in};

use crate::infos::put_infos;
use crate::parts::{Part, parts_of};
use crate::places::{Place, find};
use arith_rows::ArithRows;
use cf_rows::CfRows;
use conversion_model::TemplateTree;
use cut_code::{Cuts, FrameTree, Frames, OpSketch, PieceList};
use expand_rows::ExpandRows;
use func_rows::{CastRows, FuncRows};
use legal_graph::PatternInfo;
use memref_rows::MemrefRows;
use pipeline_text::PassName;
use row_code::{Rows, ShapeTree};
use scf_rows::ScfRows;
use std::alloc::Global;
use tree_model::NoMemory;

/// All sets.
#[derive(Drop)]
struct AllSets {
    scf: ScfRows,
    expand: ExpandRows,
    arith: ArithRows,
    cf: CfRows,
    memref: MemrefRows,
    func: FuncRows,
    cast: CastRows,
}

/// The rows of a pass: those of its sets, one set behind another.
#[derive(Drop)]
pub struct PassRows {
    pass: PassName,
    sets: AllSets,
    infos: Vec<PatternInfo>,
    pub ghost all: { infos.items ≡ map info_of (patterns_of (pass_of pass)) },
}

impl AllSets {
    fn new(alloc: Global) -> Result<AllSets, NoMemory> {
        let scf = ScfRows::new(alloc)?;
        let expand = ExpandRows::new(alloc)?;
        let arith = ArithRows::new(alloc)?;
        let cf = CfRows::new(alloc)?;
        let memref = MemrefRows::new(alloc)?;
        let func = FuncRows::new(alloc)?;
        let cast = CastRows::new(alloc)?;
        Ok(AllSets {
            scf,
            expand,
            arith,
            cf,
            memref,
            func,
            cast,
        })
    }

    /// What the patterns of a set say of themselves.
    fn infos_of(&self, part: Part) -> &[PatternInfo]
        ensures { result.now ≡ map info_of (patterns_in part) }
    {
        match part {
            Part::Scf => self.scf.infos(),
            Part::Expand => self.expand.infos(),
            Part::Arith => self.arith.infos(),
            Part::Cf => self.cf.infos(),
            Part::Memref => self.memref.infos(),
            Part::Func => self.func.infos(),
            Part::Cast => self.cast.infos(),
        }
    }

    fn all_infos(&self, alloc: Global, parts: &[Part]) -> Result<Vec<PatternInfo>, NoMemory>
        ensures { IfOk result (λ v. v.items ≡ map info_of (patterns_at parts.now)) }
    {
        let mut infos = Vec::new(alloc);
        'each: for part in parts {
            put_infos(&mut infos, alloc, self.infos_of(*part))?;
        }
        Ok(infos)
    }

    /// The template of a set's row.
    fn line_of(
        &self,
        alloc: Global,
        bits: u32,
        place: Place,
        shape: &ShapeTree,
    ) -> Result<Option<TemplateTree>, NoMemory>
        ensures { IfOk result (λ t. t ≡ tree_or_none (straight_at bits (slice_get (patterns_in place.part) place.at) (shape_of shape.now))) }
    {
        match place.part {
            Part::Scf => self.scf.line(alloc, bits, place.at, shape),
            Part::Expand => self.expand.line(alloc, bits, place.at, shape),
            Part::Arith => self.arith.line(alloc, bits, place.at, shape),
            Part::Cf => self.cf.line(alloc, bits, place.at, shape),
            Part::Memref => self.memref.line(alloc, bits, place.at, shape),
            Part::Func => self.func.line(alloc, bits, place.at, shape),
            Part::Cast => self.cast.line(alloc, bits, place.at, shape),
        }
    }

    /// The frame of a set's row: only functions have some.
    fn frame_of(
        &self,
        alloc: Global,
        bits: u32,
        place: Place,
        shape: &ShapeTree,
    ) -> Result<Option<FrameTree>, NoMemory>
        ensures { IfOk result (λ f. f ≡ frame_or_none (framing_at bits (slice_get (patterns_in place.part) place.at) (shape_of shape.now))) }
    {
        match place.part {
            Part::Func => self.func.frame(alloc, bits, place.at, shape),
            _ => Ok(None),
        }
    }

    /// The pieces of a set's row: only scf has some.
    fn cut_of(
        &self,
        alloc: Global,
        bits: u32,
        place: Place,
        sketch: &OpSketch,
    ) -> Result<Option<PieceList>, NoMemory>
        ensures { (o : Op) → sketch_of o ≡ sketch_view sketch.now → (new : Numbers) → (type_of : ℕ → PlainType) → IfOk result (λ ps. pieces_or_none new type_of ps ≡ cutting_at bits (slice_get (patterns_in place.part) place.at) new type_of o) }
    {
        match place.part {
            Part::Scf => self.scf.cut(alloc, bits, place.at, sketch),
            _ => Ok(None),
        }
    }
}

impl PassRows {
    /// The rows of a pass.
    pub fn new(alloc: Global, pass: PassName) -> Result<PassRows, NoMemory>
        ensures { IfOk result (λ rows. rows.pass ≡ pass) }
    {
        let sets = AllSets::new(alloc)?;
        let infos = sets.all_infos(alloc, parts_of(pass))?;
        Ok(PassRows { pass, sets, infos })
    }

    /// The pass.
    pub fn pass(&self) -> PassName
        ensures { result ≡ self.now.pass }
    {
        self.pass
    }
}

impl Rows for PassRows {
    ghost use Rattle.pattern_model.specs.PassTable.{pass_of, patterns_of};

    ghost table = { λ s. patterns_of (pass_of s.pass) };

    fn infos(&self) -> &[PatternInfo] {
        self.infos.as_slice()
    }

    fn line(
        &self,
        alloc: Global,
        bits: u32,
        at: u32,
        shape: &ShapeTree,
    ) -> Result<Option<TemplateTree>, NoMemory> {
        match find(parts_of(self.pass), at) {
            Some(place) => {
                let template = self.sets.line_of(alloc, bits, place, shape)?;
                Ok(template)
            }
            None => Ok(None),
        }
    }
}

impl Frames for PassRows {
    fn frame(
        &self,
        alloc: Global,
        bits: u32,
        at: u32,
        shape: &ShapeTree,
    ) -> Result<Option<FrameTree>, NoMemory> {
        match find(parts_of(self.pass), at) {
            Some(place) => {
                let frame = self.sets.frame_of(alloc, bits, place, shape)?;
                Ok(frame)
            }
            None => Ok(None),
        }
    }
}

impl Cuts for PassRows {
    fn cut(
        &self,
        alloc: Global,
        bits: u32,
        at: u32,
        sketch: &OpSketch,
    ) -> Result<Option<PieceList>, NoMemory> {
        match find(parts_of(self.pass), at) {
            Some(place) => {
                let pieces = self.sets.cut_of(alloc, bits, place, sketch)?;
                Ok(pieces)
            }
            None => Ok(None),
        }
    }
}
