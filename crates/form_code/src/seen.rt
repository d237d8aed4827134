//! What a form is told by.

ghost use Rattle.std.specs.Prelude.{◌≡◌, Option, map};
ghost use Rattle.std.specs.Option.{option_copied, option_map};
ghost use Rattle.form_model.specs.Classes as model;
ghost use Rattle.form_code.specs.Views.{bits_in, memref_view};
ghost use Rattle.form_code.specs.SeenViews.{seen_view};

use crate::places::Places;
use crate::types::{Memref, memref_of, width_of};
use run_code::Width;
use sqlite_items::at;
use tree_model::{AttrTree, Name, TypeTree};

/// What the form of an operation is told by: the width of `index`, the properties, the types of the operands and the results with
/// their types. The places of functions are only noted at calls.
#[derive(Clone, Copy)]
pub struct Seen<'a> {
    pub bits: Width,
    pub props: &'a [(Name, AttrTree)],
    pub operands: &'a [&'a TypeTree],
    pub results: &'a [(u32, TypeTree)],
    pub places: &'a Places<'a>,
}

pub(crate) fn operand_type<'a>(seen: &Seen<'a>, n: usize) -> Option<&'a TypeTree>
    ensures { option_copied result ≡ model.type_at n (seen_view seen.now).operands }
{
    match at(seen.operands, n) {
        Some(t) => Some(*t),
        None => None,
    }
}

pub(crate) fn result_type<'a>(seen: &Seen<'a>) -> Option<&'a TypeTree>
    ensures { option_copied result ≡ model.type_at 0 (seen_view seen.now).results }
{
    match seen.results {
        [] => None,
        [first, ..] => Some(&first.1),
    }
}

pub(crate) fn operand_width(seen: &Seen<'_>, n: usize) -> Option<Width>
    ensures { option_map bits_in result ≡ model.operand_width n (seen_view seen.now) }
{
    match operand_type(seen, n) {
        Some(t) => width_of(seen.bits, t),
        None => None,
    }
}

pub(crate) fn result_width(seen: &Seen<'_>) -> Option<Width>
    ensures { option_map bits_in result ≡ model.result_width (seen_view seen.now) }
{
    match result_type(seen) {
        Some(t) => width_of(seen.bits, t),
        None => None,
    }
}

pub(crate) fn operand_memref<'a>(seen: &Seen<'a>, n: usize) -> Option<Memref<'a>>
    ensures { option_map memref_view result ≡ model.memref_in n (seen_view seen.now).operands }
{
    match operand_type(seen, n) {
        Some(t) => memref_of(t),
        None => None,
    }
}

pub(crate) fn result_memref<'a>(seen: &Seen<'a>) -> Option<Memref<'a>>
    ensures { option_map memref_view result ≡ model.memref_in 0 (seen_view seen.now).results }
{
    match result_type(seen) {
        Some(t) => memref_of(t),
        None => None,
    }
}
