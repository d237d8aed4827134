//! Casts between an index and integers.

ghost use Rattle.std.specs.Prelude.{◌≡◌, IfOk, Some, [], ◌∷◌, nat_lt, codes, if◌then◌else◌};
ghost use Rattle.plain_tree.specs.Types.{plain_type, Int};
ghost use Rattle.conversion_model.specs.Types.{becomes};
ghost use Rattle.pattern_model.specs.ArithRows.{index_cast_row, one_value as value_row, resized as resized_row};
ghost use Rattle.conversion_model.specs.declared.templates.Source.TheVariants.{Operand};
ghost use Rattle.row_code.specs.Shapes.{shape_of, tree_or_none};
ghost use Rattle.arith_rows.specs.Widths.{width_of};

use conversion_model::{Source, TemplateTree};
use row_code::{ShapeTree, is_plain, one_value};
use sqlite_items::Items;
use std::alloc::Global;
use tree_model::{NoMemory, TypeTree, one};

static LONE: [Source; 1] = [Source::Operand(0)];

/// How many bits the converted type has, where it is an integer.
#[tactic(auto, using(row_code::proofs::Opens::type_opens))]
fn width(bits: u32, t: &TypeTree) -> Option<u32>
    ensures { result ≡ width_of (becomes bits (plain_type t.now)) }
{
    match t {
        TypeTree::Int(width) => Some(*width),
        TypeTree::Index => Some(bits),
        TypeTree::Memref(_, _)
        | TypeTree::Func(_, _)
        | TypeTree::Ptr
        | TypeTree::Void
        | TypeTree::Struct(_)
        | TypeTree::Array(_, _)
        | TypeTree::LlvmFunc(_, _) => None,
    }
}

fn resize_name<'a>(name: &'a [u8], m: u32, n: u32) -> &'a [u8]
    ensures { result.now ≡ (if nat_lt m n then name.now else codes "llvm.trunc") }
{
    if m < n { name } else { b"llvm.trunc" }
}

// By that name to n bits.
#[tactic(auto, using(row_code::proofs::Opens::type_opens))]
fn cast_step(alloc: Global, name: &[u8], n: u32) -> Result<TemplateTree, NoMemory>
    ensures { IfOk result (λ t. Some t ≡ tree_or_none (value_row name.now (Operand 0 ∷ []) (Some []) (Int n ∷ []))) }
{
    let step = one_value(alloc, name, &LONE, Items::new(alloc), TypeTree::Int(n))?;
    let steps = one(alloc, step)?;
    let results = one(alloc, Source::Made(0))?;
    Ok(TemplateTree { steps, results })
}

// From m bits to n: extended by that name, cut by llvm.trunc, or the operand itself.
fn resized(alloc: Global, name: &[u8], m: u32, n: u32) -> Result<TemplateTree, NoMemory>
    ensures { IfOk result (λ t. Some t ≡ tree_or_none (resized_row name.now m n)) }
{
    if m == n {
        let results = one(alloc, Source::Operand(0))?;
        return Ok(TemplateTree {
            steps: Items::new(alloc),
            results,
        });
    }
    let template = cast_step(alloc, resize_name(name, m, n), n)?;
    Ok(template)
}

pub fn index_cast(
    alloc: Global,
    name: &[u8],
    bits: u32,
    shape: &ShapeTree,
) -> Result<Option<TemplateTree>, NoMemory>
    ensures { IfOk result (λ o. o ≡ tree_or_none (index_cast_row name.now bits (shape_of shape.now))) }
{
    if !is_plain(1, 1, shape) {
        return Ok(None);
    }
    let ([from], [to]) = (shape.operands.as_slice(), shape.results.as_slice()) else {
        return Ok(None);
    };
    let (Some(m), Some(n)) = (width(bits, from), width(bits, to)) else {
        return Ok(None);
    };
    let template = resized(alloc, name, m, n)?;
    Ok(Some(template))
}
