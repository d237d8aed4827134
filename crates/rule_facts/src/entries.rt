//! What the properties of an operation tell.
#![tactic(auto, using(crate::proofs::AttrOpens::opens))]

ghost use Rattle.std.specs.Prelude.{◌≡◌};
ghost use Rattle.std.specs.Option.{option_copied, option_map};
ghost use Rattle.std.specs.List.{list_any};
ghost use Rattle.std.specs.Str.{bytes_eq};
ghost use Rattle.plain_tree.specs.Types.{plain_type};
ghost use Rattle.plain_tree.specs.Attrs.{entry, plain_attr, plain_entries};
ghost use Rattle.rule_model.specs.Facts as facts;
ghost use Rattle.rule_model.specs.Symbols as symbols;

use tree_model::{AttrTree, Name, TypeTree};

/// The entry of this name.
pub fn entry<'a>(name: &[u8], entries: &'a [(Name, AttrTree)]) -> Option<&'a AttrTree>
    ensures { option_map plain_attr (option_copied result) ≡ entry name.now (plain_entries entries.now) }
{
    for entry in entries {
        if entry.0.as_slice() == name {
            return Some(&entry.1);
        }
    }
    None
}

fn text_in(a: &AttrTree) -> Option<&[u8]>
    ensures { option_copied result ≡ facts.text_in (plain_attr a.now) }
{
    match a {
        AttrTree::Str(text) => Some(text.as_slice()),
        AttrTree::Unit
        | AttrTree::Int(_, _)
        | AttrTree::List(_)
        | AttrTree::Dict(_)
        | AttrTree::OfType(_)
        | AttrTree::Symbol(_)
        | AttrTree::Ints(_, _)
        | AttrTree::Dialect(_, _) => None,
    }
}

fn type_in(a: &AttrTree) -> Option<&TypeTree>
    ensures { option_map plain_type (option_copied result) ≡ facts.type_in (plain_attr a.now) }
{
    match a {
        AttrTree::OfType(t) => Some(t),
        AttrTree::Unit
        | AttrTree::Int(_, _)
        | AttrTree::Str(_)
        | AttrTree::List(_)
        | AttrTree::Dict(_)
        | AttrTree::Symbol(_)
        | AttrTree::Ints(_, _)
        | AttrTree::Dialect(_, _) => None,
    }
}

fn symbol_in(a: &AttrTree) -> Option<&[u8]>
    ensures { option_copied result ≡ symbols.symbol_in (plain_attr a.now) }
{
    match a {
        AttrTree::Symbol(name) => Some(name.as_slice()),
        AttrTree::Unit
        | AttrTree::Int(_, _)
        | AttrTree::Str(_)
        | AttrTree::List(_)
        | AttrTree::Dict(_)
        | AttrTree::OfType(_)
        | AttrTree::Ints(_, _)
        | AttrTree::Dialect(_, _) => None,
    }
}

/// The name of a function, none where it has none or it is no text.
pub fn name_in(props: &[(Name, AttrTree)]) -> Option<&[u8]>
    ensures { option_copied result ≡ facts.name_in (plain_entries props.now) }
{
    match entry(b"sym_name", props) {
        Some(a) => text_in(a),
        None => None,
    }
}

/// The type of a function.
pub fn function_type(props: &[(Name, AttrTree)]) -> Option<&TypeTree>
    ensures { option_map plain_type (option_copied result) ≡ facts.type_of_function (plain_entries props.now) }
{
    match entry(b"function_type", props) {
        Some(a) => type_in(a),
        None => None,
    }
}

/// The name of the function that is called.
pub fn callee_in(props: &[(Name, AttrTree)]) -> Option<&[u8]>
    ensures { option_copied result ≡ symbols.callee_in (plain_entries props.now) }
{
    match entry(b"callee", props) {
        Some(a) => symbol_in(a),
        None => None,
    }
}
