//! Single parts that are written.
#![tactic(auto, using(crate::proofs::Layers::layers))]

ghost use Rattle.std.specs.Prelude.{◌≡◌, ◌∷◌, OnOk, Some, false, map, ⊤};
ghost use Rattle.plain_tree.specs.Ops.{plain_op, plain_values, regions_in};
ghost use Rattle.choice_code.specs.Plain.{plain_template};
ghost use Rattle.conversion_model.specs.Conversion.{line_by};
ghost use Rattle.conversion_model.specs.Items.{Begins, puts};
ghost use Rattle.conversion_model.specs.Uses.{is_copy};
ghost use Rattle.cut_code.specs.Pieces.{label_at};
ghost use Rattle.new_numbers.specs.Tables.{supply_of};
ghost use Rattle.unit_writer.specs.Names.{plain_line, product_op};
ghost use Rattle.unit_writer.specs.Pages.{page_view, region_plain, with_op};
ghost use Rattle.unit_writer.specs.Writes.{Writes, state_of, with_regions};

use crate::guide::{Guide, no_copy};
use crate::kept::kept_op;
use crate::line::{Replaced, write_template};
use crate::notes::Notes;
use crate::page::Page;
use crate::pieces::{label_of, product_of};
use conversion_model::TemplateTree;
use cut_code::{CutLabel, ProductTree};
use tree_model::{NoMemory, OpTree, RegionList, TypeTree, copy_values};

/// The operation over these regions.
pub fn put_kept(
    op: &OpTree,
    regions: RegionList,
    guide: &Guide<'_>,
    page: &mut Page,
) -> Result<(), NoMemory>
    ensures put { OnOk result (page_view page.new ≡ with_op (page_view page.old) (with_regions (plain_op op.now) (regions_in (map region_plain regions)))) }
    ensures other { is_copy (plain_op op.now) ≡ false }
{
    no_copy(&op.name);
    page.put(kept_op(op, regions, guide.alloc)?)
}

/// A template in the place of an operation.
pub fn write_line(
    op: &OpTree,
    place: (u32, u32),
    template: &TemplateTree,
    guide: &Guide<'_>,
    page: &mut Page,
    notes: &mut Notes,
) -> Result<(), NoMemory>
    ensures { OnOk result (Writes (λ m. ⊤) (λ m more. puts (line_by ((supply_of m.table).value place.0 place.1) (plain_op op.now) (Some (plain_template template.now))) more) (state_of page.old notes.old) (state_of page.new notes.new)) }
{
    let of = Replaced {
        results: op.results.as_slice(),
        operands: op.operands.as_slice(),
        labels: op.successors.as_slice(),
    };
    write_template(guide.alloc, template, place, &of, page, notes)?;
    Ok(())
}

/// An operation that isn't replaced, and has no regions.
fn put_own(op: OpTree, page: &mut Page) -> Result<(), NoMemory>
    ensures put { OnOk result (page_view page.new ≡ with_op (page_view page.old) (plain_op op)) }
    ensures other { is_copy (plain_op op) ≡ false }
{
    no_copy(&op.name);
    page.put(op)
}

/// A product, or the template in its place.
pub fn write_product(
    product: &ProductTree,
    place: (u32, u32),
    line: Option<&TemplateTree>,
    guide: &Guide<'_>,
    page: &mut Page,
    notes: &mut Notes,
) -> Result<(), NoMemory>
    ensures { OnOk result (Writes (λ m. ⊤) (λ m more. puts (line_by ((supply_of m.table).value place.0 place.1) (product_op ((supply_of m.table).row place.0) product.now) (plain_line line.entry)) more) (state_of page.old notes.old) (state_of page.new notes.new)) }
{
    let op = product_of(guide.alloc, product, place.0, &mut notes.numbers)?;
    match line {
        Some(template) => write_line(&op, place, template, guide, page, notes)?,
        None => put_own(op, page)?,
    }
    Ok(())
}

/// A block opens.
pub fn write_opens(
    label: CutLabel,
    args: &[(u32, TypeTree)],
    number: u32,
    guide: &Guide<'_>,
    page: &mut Page,
    notes: &mut Notes,
) -> Result<(), NoMemory>
    ensures { OnOk result (Writes (λ m. ⊤) (λ m more. Begins (label_at ((supply_of m.table).row number) label) (plain_values args.now) ∷ more) (state_of page.old notes.old) (state_of page.new notes.new)) }
{
    let label = label_of(label, number, &mut notes.numbers)?;
    let args = copy_values(guide.alloc, args)?;
    page.begin(guide.alloc, label, args)?;
    Ok(())
}
