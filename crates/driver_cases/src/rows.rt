//! Sets of patterns as constants.

ghost use Rattle.std.specs.Prelude.{◌≡◌, IfOk, map};
ghost use Rattle.plain_tree.specs.Types.{plain_type};
ghost use Rattle.conversion_model.specs.Templates.{template_tree};
ghost use Rattle.legal_graph.specs.Graphs.{info_of};
ghost use Rattle.row_code.specs.Lines.{lines_template};
ghost use Rattle.row_code.specs.Shapes.{shape_of, tree_or_none};
ghost use Rattle.driver_cases.specs.Table.{info_at, lines_row, pattern_at, type_made};

use conversion_model::TemplateTree;
use cut_code::{Cuts, FrameTree, Frames, OpSketch, PieceList};
use legal_graph::PatternInfo;
use row_code::{Line, Rows, ShapeTree, drafted, is_plain, pattern_info};
use sqlite_items::at as entry_at;
use std::alloc::Global;
use tree_model::{NoMemory, TypeTree, copy_type};
use type_table::becomes;

/// A pattern: operations of its root become those of its lines.
#[derive(Clone, Copy, Debug)]
pub struct Entry {
    pub root: &'static [u8],
    pub products: &'static [&'static [u8]],
    pub benefit: u32,
    pub converted: bool,
    pub lines: &'static [Line],
}

/// The set of some patterns.
#[derive(Drop)]
pub struct SampleRows {
    entries: &'static [Entry],
    infos: Vec<PatternInfo>,
    pub ghost all: { infos.items ≡ map info_of (map pattern_at entries.now) },
}

/// What a pattern says of itself.
fn info(alloc: Global, entry: &Entry) -> Result<PatternInfo, NoMemory>
    ensures { IfOk result (λ i. i ≡ info_at entry.now) }
{
    let said = pattern_info(alloc, entry.root, entry.products, entry.converted)?;
    Ok(PatternInfo {
        root: said.root,
        benefit: entry.benefit,
        products: said.products,
        converted: said.converted,
    })
}

fn all_infos(alloc: Global, entries: &[Entry]) -> Result<Vec<PatternInfo>, NoMemory>
    ensures { IfOk result (λ v. v.items ≡ map info_at entries.now) }
{
    let mut infos = Vec::new(alloc);
    'each: for entry in entries {
        infos.push(info(alloc, entry)?)?;
    }
    Ok(infos)
}

/// What the lines of a pattern make in the place of a value of that type.
fn type_of_lines(
    alloc: Global,
    converted: bool,
    bits: u32,
    t: &TypeTree,
) -> Result<TypeTree, NoMemory>
    ensures { IfOk result (λ u. plain_type u ≡ type_made converted bits (plain_type t.now)) }
{
    if converted {
        let changed = becomes(alloc, bits, t)?;
        return Ok(changed);
    }
    let same = copy_type(alloc, t)?;
    Ok(same)
}

fn template(alloc: Global, entry: &Entry, bits: u32, t: &TypeTree) -> Result<TemplateTree, NoMemory>
    ensures { IfOk result (λ u. u ≡ template_tree (lines_template entry.now.lines.now (type_made entry.now.converted bits (plain_type t.now)))) }
{
    let t = type_of_lines(alloc, entry.converted, bits, t)?;
    let template = drafted(alloc, entry.lines, &t)?;
    Ok(template)
}

/// The template of a row.
fn row(
    alloc: Global,
    entry: &Entry,
    bits: u32,
    shape: &ShapeTree,
) -> Result<Option<TemplateTree>, NoMemory>
    ensures { IfOk result (λ t. t ≡ tree_or_none (lines_row entry.now.converted entry.now.lines.now bits (shape_of shape.now))) }
{
    if !is_plain(shape.operands.len(), 1, shape) {
        return Ok(None);
    }
    let [t] = shape.results.as_slice() else {
        return Ok(None);
    };
    let template = template(alloc, entry, bits, t)?;
    Ok(Some(template))
}

impl SampleRows {
    /// The set of these patterns.
    pub fn new(alloc: Global, entries: &'static [Entry]) -> Result<SampleRows, NoMemory>
        ensures { IfOk result (λ s. s.entries.now ≡ entries.now) }
    {
        let infos = all_infos(alloc, entries)?;
        Ok(SampleRows { entries, infos })
    }
}

impl Rows for SampleRows {
    ghost use Rattle.std.specs.Prelude.{map};
    ghost use Rattle.driver_cases.specs.Table.{pattern_at};

    ghost table = { λ s. map pattern_at s.entries.now };

    fn infos(&self) -> &[PatternInfo] {
        self.infos.as_slice()
    }

    fn line(
        &self,
        alloc: Global,
        bits: u32,
        at: u32,
        shape: &ShapeTree,
    ) -> Result<Option<TemplateTree>, NoMemory> {
        match entry_at(self.entries, at as usize) {
            Some(entry) => {
                let template = row(alloc, entry, bits, shape)?;
                Ok(template)
            }
            None => Ok(None),
        }
    }
}

impl Cuts for SampleRows {
    fn cut(
        &self,
        alloc: Global,
        bits: u32,
        at: u32,
        sketch: &OpSketch,
    ) -> Result<Option<PieceList>, NoMemory> {
        Ok(None)
    }
}

impl Frames for SampleRows {
    fn frame(
        &self,
        alloc: Global,
        bits: u32,
        at: u32,
        shape: &ShapeTree,
    ) -> Result<Option<FrameTree>, NoMemory> {
        Ok(None)
    }
}
