//! The sets.

ghost use Rattle.std.specs.Prelude.{◌≡◌, ◌∷◌, IfOk, [], map};
ghost use Rattle.legal_graph.specs.Graphs.{info_of};
ghost use Rattle.pattern_model.specs.FuncRows.{cast_pattern, func_set_without_cast};
ghost use Rattle.row_code.specs.Shapes.{shape_of, tree_or_none};
ghost use Rattle.row_code.specs.Straight.{straight};
ghost use Rattle.cut_code.specs.Frames.{frame_or_none, framing};
ghost use Rattle.func_rows.specs.Table.{form_row, info_at};

use crate::calls::call;
use crate::casts::cast;
use crate::functions::function;
use crate::returns::return_values;
use crate::table::{Entry, Form, cast_entries, entries};
use conversion_model::TemplateTree;
use cut_code::{FrameTree, Frames};
use legal_graph::PatternInfo;
use row_code::{Rows, ShapeTree, pattern_info};
use sqlite_items::at as entry_at;
use std::alloc::Global;
use tree_model::NoMemory;

/// The 3 rows of functions.
#[derive(Drop)]
pub struct FuncRows {
    infos: Vec<PatternInfo>,
    pub ghost all: { infos.items ≡ map info_of func_set_without_cast },
}

/// The row of casts.
#[derive(Drop)]
pub struct CastRows {
    infos: Vec<PatternInfo>,
    pub ghost all: { infos.items ≡ map info_of (cast_pattern ∷ []) },
}

fn all_infos(alloc: Global, table: &[Entry]) -> Result<Vec<PatternInfo>, NoMemory>
    ensures { IfOk result (λ v. v.items ≡ map info_at table.now) }
{
    let mut infos = Vec::with_capacity(alloc, table.len())?;
    'each: for entry in table {
        infos.push(pattern_info(alloc, entry.root, entry.products, true)?)?;
    }
    Ok(infos)
}

/// The template of a row, where it is straight.
fn row(
    alloc: Global,
    entry: &Entry,
    bits: u32,
    shape: &ShapeTree,
) -> Result<Option<TemplateTree>, NoMemory>
    ensures { IfOk result (λ t. t ≡ tree_or_none (straight (form_row entry.now.form bits) (shape_of shape.now))) }
{
    match entry.form {
        Form::Function => Ok(None),
        Form::Call => call(alloc, bits, shape),
        Form::Return => return_values(alloc, bits, shape),
        Form::Cast => cast(alloc, bits, shape),
    }
}

/// The frame of a row, where it frames a function.
fn frame_row(
    alloc: Global,
    entry: &Entry,
    bits: u32,
    shape: &ShapeTree,
) -> Result<Option<FrameTree>, NoMemory>
    ensures { IfOk result (λ f. f ≡ frame_or_none (framing (form_row entry.now.form bits) (shape_of shape.now))) }
{
    match entry.form {
        Form::Function => function(alloc, bits, shape),
        Form::Call | Form::Return | Form::Cast => Ok(None),
    }
}

impl FuncRows {
    /// The set.
    pub fn new(alloc: Global) -> Result<FuncRows, NoMemory> {
        let infos = all_infos(alloc, entries())?;
        Ok(FuncRows { infos })
    }
}

impl CastRows {
    /// The set.
    pub fn new(alloc: Global) -> Result<CastRows, NoMemory> {
        let infos = all_infos(alloc, cast_entries())?;
        Ok(CastRows { infos })
    }
}

impl Rows for FuncRows {
    ghost use Rattle.pattern_model.specs.FuncRows.{func_set_without_cast};

    ghost table = { λ s. func_set_without_cast };

    fn infos(&self) -> &[PatternInfo] {
        self.infos.as_slice()
    }

    fn line(
        &self,
        alloc: Global,
        bits: u32,
        at: u32,
        shape: &ShapeTree,
    ) -> Result<Option<TemplateTree>, NoMemory> {
        match entry_at(entries(), at as usize) {
            Some(entry) => {
                let template = row(alloc, entry, bits, shape)?;
                Ok(template)
            }
            None => Ok(None),
        }
    }
}

impl Frames for FuncRows {
    fn frame(
        &self,
        alloc: Global,
        bits: u32,
        at: u32,
        shape: &ShapeTree,
    ) -> Result<Option<FrameTree>, NoMemory> {
        match entry_at(entries(), at as usize) {
            Some(entry) => {
                let frame = frame_row(alloc, entry, bits, shape)?;
                Ok(frame)
            }
            None => Ok(None),
        }
    }
}

impl Rows for CastRows {
    ghost use Rattle.std.specs.Prelude.{◌∷◌, []};
    ghost use Rattle.pattern_model.specs.FuncRows.{cast_pattern};

    ghost table = { λ s. cast_pattern ∷ [] };

    fn infos(&self) -> &[PatternInfo] {
        self.infos.as_slice()
    }

    fn line(
        &self,
        alloc: Global,
        bits: u32,
        at: u32,
        shape: &ShapeTree,
    ) -> Result<Option<TemplateTree>, NoMemory> {
        match entry_at(cast_entries(), at as usize) {
            Some(entry) => {
                let template = row(alloc, entry, bits, shape)?;
                Ok(template)
            }
            None => Ok(None),
        }
    }
}
