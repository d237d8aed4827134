//! Casts.

ghost use Rattle.std.specs.Prelude.{◌≡◌, IfOk};
ghost use Rattle.plain_tree.specs.Types.{plain_type, same_type as same_plain};
ghost use Rattle.conversion_model.specs.Types.{converted_type as table_row};
ghost use Rattle.pattern_model.specs.FuncRows.{cast_row, same_converted as same_rows};
ghost use Rattle.row_code.specs.Shapes.{shape_of, tree_or_none};

use conversion_model::{Source, TemplateTree};
use row_code::{ShapeTree, is_plain};
use sqlite_items::Items;
use std::alloc::Global;
use tree_model::{NoMemory, TypeTree, one, same_type};
use type_table::converted_type;

fn have_same(t: &TypeTree, u: &TypeTree) -> bool
    ensures { result ≡ same_plain (plain_type t.now) (plain_type u.now) }
{
    same_type(t, u)
}

/// Whether both types have equal rows.
fn same_converted(alloc: Global, bits: u32, t: &TypeTree, u: &TypeTree) -> Result<bool, NoMemory>
    ensures { IfOk result (λ b. b ≡ same_rows (table_row bits (plain_type t.now)) (table_row bits (plain_type u.now))) }
{
    let Some(t) = converted_type(alloc, bits, t)? else {
        return Ok(false);
    };
    let Some(u) = converted_type(alloc, bits, u)? else {
        return Ok(false);
    };
    Ok(have_same(&t, &u))
}

/// The operand itself, for one operand and one result with equal converted types.
pub fn cast(alloc: Global, bits: u32, shape: &ShapeTree) -> Result<Option<TemplateTree>, NoMemory>
    ensures { IfOk result (λ o. o ≡ tree_or_none (cast_row bits (shape_of shape.now))) }
{
    if !is_plain(1, 1, shape) {
        return Ok(None);
    }
    let ([from], [to]) = (shape.operands.as_slice(), shape.results.as_slice()) else {
        return Ok(None);
    };
    if !same_converted(alloc, bits, from, to)? {
        return Ok(None);
    }
    let results = one(alloc, Source::Operand(0))?;
    Ok(Some(TemplateTree {
        steps: Items::new(alloc),
        results,
    }))
}
