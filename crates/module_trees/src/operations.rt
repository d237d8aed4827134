//! An operation from its parts.

ghost use Rattle.std.specs.Prelude.{◌≡◌, ◌≤◌, IfOk, length};
ghost use Rattle.event_trees.specs.Attrs.{written_of};
ghost use Rattle.event_trees.specs.Dictionaries.{attrs_of, props_of};
ghost use Rattle.event_trees.specs.Levels as levels;
ghost use Rattle.event_trees.specs.Wording.{wording_of};
ghost use Rattle.module_trees.specs.Views.{PartsWithin, parts_of};
ghost use Rattle.term_table.specs.Terms.{term_at};

use crate::levels::{Parts, turned};
use std::alloc::{AllocError, Global};
use term_table::Terms;
use term_trees::{Dictionaries, name_at, results_at, split, written_at};
use text_events::Source;
use tree_model::{Name, OpTree};

/// The dictionaries of an operation of this name.
fn dictionaries_of(
    alloc: Global,
    source: &Source<'_>,
    terms: &Terms,
    op: &Name,
    props: u32,
    attrs: u32,
) -> Result<Dictionaries, AllocError>
    requires props { props ≤ length terms.now.nodes.keys }
    requires attrs { attrs ≤ length terms.now.nodes.keys }
    ensures props { IfOk result (λ d. d.props ≡ props_of op.now (written_of (wording_of source.now.text.now source.now.words.now) (term_at terms.now.nodes.keys props)) (written_of (wording_of source.now.text.now source.now.words.now) (term_at terms.now.nodes.keys attrs))) }
    ensures attrs { IfOk result (λ d. d.attrs ≡ attrs_of op.now (written_of (wording_of source.now.text.now source.now.words.now) (term_at terms.now.nodes.keys attrs))) }
{
    let props = written_at(alloc, source, terms, props)?;
    let attrs = written_at(alloc, source, terms, attrs)?;
    split(alloc, op, props, attrs)
}

/// The operation with this name, whose first result has this number and whose parts stand behind the name.
pub fn op_named(
    alloc: Global,
    source: &Source<'_>,
    terms: &Terms,
    name: u32,
    number: u32,
    parts: Parts,
) -> Result<OpTree, AllocError>
    requires { PartsWithin (length terms.now.nodes.keys) parts }
    ensures { IfOk result (λ o. o ≡ levels.op_named (wording_of source.now.text.now source.now.words.now) name number (parts_of terms.now.nodes.keys parts)) }
{
    let name = name_at(alloc, source, name as u64)?;
    let dictionaries = dictionaries_of(alloc, source, terms, &name, parts.props, parts.attrs)?;
    let results = results_at(alloc, terms, parts.signature, number)?;
    Ok(OpTree {
        name,
        results,
        operands: turned(parts.operands),
        props: dictionaries.props,
        attrs: dictionaries.attrs,
        regions: turned(parts.regions),
        successors: turned(parts.successors),
    })
}
