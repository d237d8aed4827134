//! The set.

ghost use Rattle.std.specs.Prelude.{◌≡◌, IfOk, map, get_or};
ghost use Rattle.legal_graph.specs.Graphs.{info_of};
ghost use Rattle.pattern_model.specs.MemrefRows.{memref_set};
ghost use Rattle.memref_rows.specs.Table.{form_row, info_at};
ghost use Rattle.row_code.specs.Shapes.{shape_of, tree_or_none};

use crate::allocation::{aligned_alloc, alloc as plain_alloc};
use crate::places::{load, store};
use crate::sizes::{cast, dealloc, dimension, rank};
use crate::table::{Entry, Form, entries};
use conversion_model::TemplateTree;
use legal_graph::PatternInfo;
use row_code::{Rows, ShapeTree, pattern_info};
use sqlite_items::at as entry_at;
use std::alloc::Global;
use tree_model::NoMemory;

/// The 8 rows of memref.
#[derive(Drop)]
pub struct MemrefRows {
    infos: Vec<PatternInfo>,
    pub ghost all: { infos.items ≡ map info_of memref_set },
}

fn all_infos(alloc: Global, table: &[Entry]) -> Result<Vec<PatternInfo>, NoMemory>
    ensures { IfOk result (λ v. v.items ≡ map info_at table.now) }
{
    let mut infos = Vec::with_capacity(alloc, table.len())?;
    'each: for entry in table {
        infos.push(pattern_info(alloc, entry.root, entry.products, true)?)?;
    }
    Ok(infos)
}

/// The template of a row.
fn row(
    alloc: Global,
    entry: &Entry,
    bits: u32,
    shape: &ShapeTree,
) -> Result<Option<TemplateTree>, NoMemory>
    ensures { IfOk result (λ t. t ≡ tree_or_none (form_row entry.now.form bits (shape_of shape.now))) }
{
    match entry.form {
        Form::Alloc => plain_alloc(alloc, bits, shape),
        Form::AlignedAlloc => aligned_alloc(alloc, bits, shape),
        Form::Dealloc => dealloc(alloc, bits, shape),
        Form::Load => load(alloc, bits, shape),
        Form::Store => store(alloc, bits, shape),
        Form::Dimension => dimension(alloc, bits, shape),
        Form::Rank => rank(alloc, bits, shape),
        Form::Cast => cast(alloc, bits, shape),
    }
}

impl MemrefRows {
    /// The set.
    pub fn new(alloc: Global) -> Result<MemrefRows, NoMemory> {
        let infos = all_infos(alloc, entries())?;
        Ok(MemrefRows { infos })
    }
}

impl Rows for MemrefRows {
    ghost use Rattle.pattern_model.specs.MemrefRows.{memref_set};

    ghost table = { λ s. memref_set };

    fn infos(&self) -> &[PatternInfo] {
        self.infos.as_slice()
    }

    fn line(
        &self,
        alloc: Global,
        bits: u32,
        at: u32,
        shape: &ShapeTree,
    ) -> Result<Option<TemplateTree>, NoMemory> {
        match entry_at(entries(), at as usize) {
            Some(entry) => {
                let template = row(alloc, entry, bits, shape)?;
                Ok(template)
            }
            None => Ok(None),
        }
    }
}
