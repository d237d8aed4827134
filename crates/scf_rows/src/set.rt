//! The set.

ghost use Rattle.std.specs.Prelude.{◌≡◌, IfOk, map};
ghost use Rattle.legal_graph.specs.Graphs.{info_of};
ghost use Rattle.pattern_model.specs.ScfRows.{scf_set};
ghost use Rattle.scf_rows.specs.Forms.{form_trees};
ghost use Rattle.scf_rows.specs.Table.{info_at};

use crate::conditions::{execute_cut, if_cut};
use crate::loops::{for_cut, while_cut};
use crate::switches::switch_cut;
use crate::table::{Entry, Form, entries};
use conversion_model::TemplateTree;
use cut_code::{Cuts, OpSketch, PieceList};
use legal_graph::PatternInfo;
use row_code::{Rows, ShapeTree, pattern_info};
use sqlite_items::at as entry_at;
use std::alloc::Global;
use tree_model::NoMemory;

/// The 5 rows of scf.
#[derive(Drop)]
pub struct ScfRows {
    infos: Vec<PatternInfo>,
    pub ghost all: { infos.items ≡ map info_of scf_set },
}

fn all_infos(alloc: Global, table: &[Entry]) -> Result<Vec<PatternInfo>, NoMemory>
    ensures { IfOk result (λ v. v.items ≡ map info_at table.now) }
{
    let mut infos = Vec::with_capacity(alloc, table.len())?;
    'each: for entry in table {
        infos.push(pattern_info(alloc, entry.root, entry.products, false)?)?;
    }
    Ok(infos)
}

/// The cut of a row.
fn row(alloc: Global, form: Form, sketch: &OpSketch) -> Result<Option<PieceList>, NoMemory>
    ensures { IfOk result (λ ps. ps ≡ form_trees form sketch.now) }
{
    match form {
        Form::If => if_cut(alloc, sketch),
        Form::For => for_cut(alloc, sketch),
        Form::While => while_cut(alloc, sketch),
        Form::Switch => switch_cut(alloc, sketch),
        Form::Execute => execute_cut(alloc, sketch),
    }
}

impl ScfRows {
    /// The set.
    pub fn new(alloc: Global) -> Result<ScfRows, NoMemory> {
        let infos = all_infos(alloc, entries())?;
        Ok(ScfRows { infos })
    }
}

impl Rows for ScfRows {
    ghost use Rattle.pattern_model.specs.ScfRows.{scf_set};

    ghost table = { λ s. scf_set };

    fn infos(&self) -> &[PatternInfo] {
        self.infos.as_slice()
    }

    fn line(
        &self,
        _alloc: Global,
        _bits: u32,
        _at: u32,
        _shape: &ShapeTree,
    ) -> Result<Option<TemplateTree>, NoMemory> {
        Ok(None)
    }
}

impl Cuts for ScfRows {
    fn cut(
        &self,
        alloc: Global,
        _bits: u32,
        at: u32,
        sketch: &OpSketch,
    ) -> Result<Option<PieceList>, NoMemory> {
        match entry_at(entries(), at as usize) {
            Some(entry) => {
                let pieces = row(alloc, entry.form, sketch)?;
                Ok(pieces)
            }
            None => Ok(None),
        }
    }
}
