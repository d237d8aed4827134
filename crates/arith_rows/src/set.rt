//! The set.

ghost use Rattle.std.specs.Prelude.{◌≡◌, IfOk, map, get_or};
ghost use Rattle.legal_graph.specs.Graphs.{info_of};
ghost use Rattle.pattern_model.specs.ArithRows.{arith_set};
ghost use Rattle.arith_rows.specs.Table.{form_row, info_at, name_at};
ghost use Rattle.row_code.specs.Shapes.{shape_of, tree_or_none};

use crate::forms::{binary, compare, constant, extended, extreme, flagged, select, truncated};
use crate::resize::index_cast;
use crate::table::{Entry, Form, entries};
use conversion_model::TemplateTree;
use legal_graph::PatternInfo;
use row_code::{Rows, ShapeTree, pattern_info};
use sqlite_items::at as entry_at;
use std::alloc::Global;
use tree_model::NoMemory;

/// The 25 rows of arith.
#[derive(Drop)]
pub struct ArithRows {
    infos: Vec<PatternInfo>,
    pub ghost all: { infos.items ≡ map info_of arith_set },
}

fn all_infos(alloc: Global, table: &[Entry]) -> Result<Vec<PatternInfo>, NoMemory>
    ensures { IfOk result (λ v. v.items ≡ map info_at table.now) }
{
    let mut infos = Vec::with_capacity(alloc, table.len())?;
    'each: for entry in table {
        infos.push(pattern_info(alloc, entry.root, entry.products, true)?)?;
    }
    Ok(infos)
}

fn first_name(products: &[&'static [u8]]) -> &'static [u8]
    ensures { result.now ≡ name_at products.now }
{
    match products.first() {
        Some(name) => name,
        None => b"",
    }
}

/// The template of a row.
fn row(
    alloc: Global,
    entry: &Entry,
    bits: u32,
    shape: &ShapeTree,
) -> Result<Option<TemplateTree>, NoMemory>
    ensures { IfOk result (λ t. t ≡ tree_or_none (form_row entry.now.form (name_at entry.now.products.now) bits (shape_of shape.now))) }
{
    let name = first_name(entry.products);
    match entry.form {
        Form::Constant => constant(alloc, bits, shape),
        Form::Flagged => flagged(alloc, name, bits, shape),
        Form::Binary => binary(alloc, name, bits, shape),
        Form::Compare => compare(alloc, bits, shape),
        Form::Select => select(alloc, bits, shape),
        Form::Extended => extended(alloc, name, bits, shape),
        Form::Truncated => truncated(alloc, bits, shape),
        Form::IndexCast => index_cast(alloc, name, bits, shape),
        Form::Extreme(predicate) => extreme(alloc, predicate, bits, shape),
    }
}

impl ArithRows {
    /// The set.
    pub fn new(alloc: Global) -> Result<ArithRows, NoMemory> {
        let infos = all_infos(alloc, entries())?;
        Ok(ArithRows { infos })
    }
}

impl Rows for ArithRows {
    ghost use Rattle.pattern_model.specs.ArithRows.{arith_set};

    ghost table = { λ s. arith_set };

    fn infos(&self) -> &[PatternInfo] {
        self.infos.as_slice()
    }

    fn line(
        &self,
        alloc: Global,
        bits: u32,
        at: u32,
        shape: &ShapeTree,
    ) -> Result<Option<TemplateTree>, NoMemory> {
        match entry_at(entries(), at as usize) {
            Some(entry) => {
                let template = row(alloc, entry, bits, shape)?;
                Ok(template)
            }
            None => Ok(None),
        }
    }
}
