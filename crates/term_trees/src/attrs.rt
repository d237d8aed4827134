//! Terms as attributes.

ghost use Rattle.std.specs.Prelude.{◌≡◌, ◌≤◌, ◌<◌, IfOk, length};
ghost use Rattle.event_trees.specs.Attrs.{attr_of, entries_of, integer, integer_type, items_of, minus_of, truth, written_of};
ghost use Rattle.event_trees.specs.Wording.{wording_of};
ghost use Rattle.plain_tree.specs.Types.{type_tree};
ghost use Rattle.term_table.specs.Terms.{made_of, term_at};

use crate::dictionaries::sort;
use crate::integers::{bits_of, negative, number_below, signed};
use crate::lists::item;
use crate::spelled::{bytes_at, dialect_name, is_true, name_at, number_at, numbers_at, words_at};
use crate::types::type_at;
use sqlite_items::Items;
use std::alloc::{AllocError, Global};
use term_table::{Form, Node, Terms};
use text_events::Source;
use tree_model::{AttrList, AttrTree, Name, TypeTree};

/// The attribute of a term.
#[cycle(attrs)]
pub fn attr_at(
    alloc: Global,
    source: &Source<'_>,
    terms: &Terms,
    number: u32,
) -> Result<AttrTree, AllocError>
    requires { number ≤ length terms.now.nodes.keys }
    ensures { IfOk result (λ a. a ≡ attr_of (wording_of source.now.text.now source.now.words.now) (term_at terms.now.nodes.keys number)) }
{
    match terms.get(number) {
        Some(node) => attr_of(alloc, source, terms, number, node),
        None => Ok(AttrTree::OfType(TypeTree::Void)),
    }
}

#[cycle(attrs)]
fn attr_of(
    alloc: Global,
    source: &Source<'_>,
    terms: &Terms,
    number: u32,
    node: Node,
) -> Result<AttrTree, AllocError>
    requires within { number ≤ length terms.now.nodes.keys }
    requires left { node.left < number }
    requires is { term_at terms.now.nodes.keys number ≡ made_of terms.now.nodes.keys node }
    ensures { IfOk result (λ a. a ≡ attr_of (wording_of source.now.text.now source.now.words.now) (made_of terms.now.nodes.keys node)) }
{
    match node.form {
        Form::Unit => Ok(AttrTree::Unit),
        Form::Number => {
            let value = number_at(source, node.value)?;
            integer(alloc, terms, value, node.left)
        }
        Form::Minus => minus_of(alloc, source, terms, node.left),
        Form::Bool => Ok(truth(is_true(alloc, source, node.value)?)),
        Form::Text => Ok(AttrTree::Str(bytes_at(alloc, source, node.value)?)),
        Form::Items => Ok(AttrTree::List(items_at(alloc, source, terms, node.left)?)),
        Form::Dict => {
            let entries = entries_at(alloc, source, terms, node.left)?;
            Ok(AttrTree::Dict(Items::from_vec(sort(entries)?)))
        }
        Form::Symbol => Ok(AttrTree::Symbol(bytes_at(alloc, source, node.value)?)),
        Form::Numbers => {
            let bits = number_below(node.value)?;
            let numbers = numbers_at(alloc, source, terms, bits, node.left)?;
            Ok(AttrTree::Ints(bits, numbers))
        }
        Form::Dialect => {
            let name = dialect_name(alloc, source, node.value)?;
            let words = words_at(alloc, source, terms, node.left)?;
            Ok(AttrTree::Dialect(name, words))
        }
        _ => Ok(AttrTree::OfType(type_at(alloc, terms, number)?)),
    }
}

/// The type of an integer: i64 where none is written.
fn integer_type(alloc: Global, terms: &Terms, number: u32) -> Result<TypeTree, AllocError>
    requires { number ≤ length terms.now.nodes.keys }
    ensures { IfOk result (λ t. t ≡ type_tree (integer_type (term_at terms.now.nodes.keys number))) }
{
    if terms.get(number).is_none() {
        return Ok(TypeTree::Int(64));
    }
    type_at(alloc, terms, number)
}

/// An integer without a minus, with this type.
fn integer(alloc: Global, terms: &Terms, value: u128, number: u32) -> Result<AttrTree, AllocError>
    requires { number ≤ length terms.now.nodes.keys }
    ensures { IfOk result (λ a. a ≡ integer value (term_at terms.now.nodes.keys number)) }
{
    let value = signed(bits_of(terms, number)?, value)?;
    Ok(AttrTree::Int(value, integer_type(alloc, terms, number)?))
}

/// What stands behind a minus.
fn minus_of(
    alloc: Global,
    source: &Source<'_>,
    terms: &Terms,
    number: u32,
) -> Result<AttrTree, AllocError>
    requires { number ≤ length terms.now.nodes.keys }
    ensures { IfOk result (λ a. a ≡ minus_of (wording_of source.now.text.now source.now.words.now) (term_at terms.now.nodes.keys number)) }
{
    let Some(digits) = item(terms, number, Form::Number) else {
        return Ok(AttrTree::Unit);
    };
    let value = negative(number_at(source, digits.value)?)?;
    Ok(AttrTree::Int(value, integer_type(alloc, terms, digits.left)?))
}

fn truth(value: bool) -> AttrTree
    ensures { result ≡ truth value }
{
    let value = if value { -1 } else { 0 };
    AttrTree::Int(value, TypeTree::Int(1))
}

/// The members of a list.
#[cycle(attrs)]
fn items_at(
    alloc: Global,
    source: &Source<'_>,
    terms: &Terms,
    number: u32,
) -> Result<AttrList, AllocError>
    requires { number ≤ length terms.now.nodes.keys }
    ensures { IfOk result (λ all. all ≡ items_of (wording_of source.now.text.now source.now.words.now) (term_at terms.now.nodes.keys number)) }
{
    let mut items = Items::new(alloc);
    let mut rest = number;
    'each: while let Some(first) = item(terms, rest, Form::Item) {
        items.push(attr_at(alloc, source, terms, first.left)?)?;
        rest = first.right;
    }
    Ok(items)
}

/// The entries of a dictionary, as they are written.
#[cycle(attrs)]
fn entries_at(
    alloc: Global,
    source: &Source<'_>,
    terms: &Terms,
    number: u32,
) -> Result<Vec<(Name, AttrTree)>, AllocError>
    requires { number ≤ length terms.now.nodes.keys }
    ensures { IfOk result (λ all. all.items ≡ entries_of (wording_of source.now.text.now source.now.words.now) (term_at terms.now.nodes.keys number)) }
{
    let mut entries = Vec::new(alloc);
    let mut rest = number;
    'each: while let Some(first) = item(terms, rest, Form::Entry) {
        let name = name_at(alloc, source, first.value)?;
        let value = attr_at(alloc, source, terms, first.left)?;
        entries.push((name, value))?;
        rest = first.right;
    }
    Ok(entries)
}

/// The entries of a dictionary's term, as they are written: none where there is no dictionary.
pub fn written_at(
    alloc: Global,
    source: &Source<'_>,
    terms: &Terms,
    number: u32,
) -> Result<Vec<(Name, AttrTree)>, AllocError>
    requires { number ≤ length terms.now.nodes.keys }
    ensures { IfOk result (λ all. all.items ≡ written_of (wording_of source.now.text.now source.now.words.now) (term_at terms.now.nodes.keys number)) }
{
    match item(terms, number, Form::Dict) {
        Some(dictionary) => entries_at(alloc, source, terms, dictionary.left),
        None => Ok(Vec::new(alloc)),
    }
}
