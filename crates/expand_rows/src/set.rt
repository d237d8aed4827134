//! The set.

ghost use Rattle.std.specs.Prelude.{◌≡◌, IfOk, map};
ghost use Rattle.legal_graph.specs.Graphs.{info_of};
ghost use Rattle.pattern_model.specs.ExpandRows.{expand_set};
ghost use Rattle.expand_rows.specs.Table.{info_at, lines_row};
ghost use Rattle.row_code.specs.Shapes.{shape_of, tree_or_none};

use crate::table::{Entry, entries};
use conversion_model::TemplateTree;
use legal_graph::PatternInfo;
use row_code::{Line, Rows, ShapeTree, drafted, is_plain, pattern_info};
use sqlite_items::at as entry_at;
use std::alloc::Global;
use tree_model::NoMemory;

/// The 5 rows of arith-expand.
#[derive(Drop)]
pub struct ExpandRows {
    infos: Vec<PatternInfo>,
    pub ghost all: { infos.items ≡ map info_of expand_set },
}

fn all_infos(alloc: Global, table: &[Entry]) -> Result<Vec<PatternInfo>, NoMemory>
    ensures { IfOk result (λ v. v.items ≡ map info_at table.now) }
{
    let mut infos = Vec::with_capacity(alloc, table.len())?;
    'each: for entry in table {
        infos.push(pattern_info(alloc, entry.root, entry.products, false)?)?;
    }
    Ok(infos)
}

/// The template of a row, whose operations make values of the type of the one result.
fn row(alloc: Global, lines: &[Line], shape: &ShapeTree) -> Result<Option<TemplateTree>, NoMemory>
    ensures { IfOk result (λ t. t ≡ tree_or_none (lines_row lines.now (shape_of shape.now))) }
{
    if !is_plain(2, 1, shape) {
        return Ok(None);
    }
    let [t] = shape.results.as_slice() else {
        return Ok(None);
    };
    let template = drafted(alloc, lines, t)?;
    Ok(Some(template))
}

impl ExpandRows {
    /// The set.
    pub fn new(alloc: Global) -> Result<ExpandRows, NoMemory> {
        let infos = all_infos(alloc, entries())?;
        Ok(ExpandRows { infos })
    }
}

impl Rows for ExpandRows {
    ghost use Rattle.pattern_model.specs.ExpandRows.{expand_set};

    ghost table = { λ s. expand_set };

    fn infos(&self) -> &[PatternInfo] {
        self.infos.as_slice()
    }

    fn line(
        &self,
        alloc: Global,
        bits: u32,
        at: u32,
        shape: &ShapeTree,
    ) -> Result<Option<TemplateTree>, NoMemory> {
        match entry_at(entries(), at as usize) {
            Some(entry) => {
                let template = row(alloc, entry.lines, shape)?;
                Ok(template)
            }
            None => Ok(None),
        }
    }
}
