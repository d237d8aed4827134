//! Prints attributes and dictionaries.
#![tactic(auto, using(crate::proofs::GrewLaws::grew_laws))]

ghost use Rattle.std.specs.Prelude.{◌≡◌, ◌++◌, IfOk, OnOk, OnErr, map, codes};
ghost use Rattle.tree_text.specs.Joined.{joined};
ghost use Rattle.tree_text.specs.Grew.{Grew};
ghost use Rattle.tree_text.specs.AttrText.{shown, is_bit, integer_text, dict_text, entry_text, numbers_text, words_text, attr_text, value_text, bit_text};

use crate::grow::{add, add_number, add_signed};
use crate::print_name::{add_name, add_string};
use crate::print_type::add_type;
use std::alloc::Global;
use tree_model::{AttrTree, Bytes, Name, NoMemory, TypeTree};

/// The printed text of an attribute.
pub fn attr_text(alloc: Global, a: &AttrTree) -> Result<Bytes, NoMemory>
    ensures { IfOk result (λ text. text ≡ attr_text a.now) }
{
    let mut out = Bytes::new(alloc);
    add_attr(&mut out, a)?;
    Ok(out)
}

/// Appends an attribute.
pub fn put_attr(out: &mut Bytes, a: &AttrTree) -> Result<(), NoMemory>
    ensures ok { OnOk result (out.new ≡ out.old ++ attr_text a.now) }
    ensures err { OnErr result (out.new ≡ out.old) }
{
    let len = out.len();
    if let Err(fault) = add_attr(out, a) {
        out.truncate(len);
        return Err(fault);
    }
    Ok(())
}

/// Appends the entries of a dictionary, without what stands round them.
pub fn put_dict(out: &mut Bytes, entries: &[(Name, AttrTree)]) -> Result<(), NoMemory>
    ensures ok { OnOk result (out.new ≡ out.old ++ dict_text entries.now) }
    ensures err { OnErr result (out.new ≡ out.old) }
{
    let len = out.len();
    if let Err(fault) = add_dict(out, entries) {
        out.truncate(len);
        return Err(fault);
    }
    Ok(())
}

#[cycle(add_attr)]
#[tactic(auto, using(crate::proofs::ShownLaws::shown_laws))]
fn add_attr(out: &mut Bytes, a: &AttrTree) -> Result<(), NoMemory>
    ensures ok { OnOk result (out.new ≡ out.old ++ (shown a.now).text) }
    ensures grew { Grew out.old out.new }
{
    match a {
        AttrTree::Unit => add(out, b"unit"),
        AttrTree::Int(value, t) => add_integer(out, *value, t),
        AttrTree::Str(text) => add_string(out, text.as_slice()),
        AttrTree::List(items) => {
            add(out, b"[")?;
            add_attrs(out, items.as_slice())?;
            add(out, b"]")
        }
        AttrTree::Dict(entries) => {
            add(out, b"{")?;
            add_dict(out, entries.as_slice())?;
            add(out, b"}")
        }
        AttrTree::OfType(t) => add_type(out, false, t),
        AttrTree::Symbol(name) => {
            add(out, b"@")?;
            add_name(out, name.as_slice())
        }
        AttrTree::Ints(width, numbers) => {
            add(out, b"array<i")?;
            add_number(out, u64::from(*width))?;
            add_numbers(out, numbers.as_slice())?;
            add(out, b">")
        }
        AttrTree::Dialect(name, words) => {
            add(out, b"#")?;
            add(out, name.as_slice())?;
            add_words(out, words.as_slice())
        }
    }
}

#[cycle(add_attr)]
#[tactic(auto, using(crate::proofs::ShownLaws::shown_laws))]
fn add_attrs(out: &mut Bytes, attrs: &[AttrTree]) -> Result<(), NoMemory>
    ensures ok { OnOk result (out.new ≡ out.old
        ++ joined (codes ", ") (map (λ s. s.text) (map shown attrs.now))) }
    ensures grew { Grew out.old out.new }
{
    if let [first, rest @ ..] = attrs {
        add_attr(out, first)?;
        for a in rest {
            add(out, b", ")?;
            add_attr(out, a)?;
        }
    }
    Ok(())
}

#[cycle(add_attr)]
#[tactic(auto, using(crate::proofs::ShownLaws::shown_laws))]
fn add_dict(out: &mut Bytes, entries: &[(Name, AttrTree)]) -> Result<(), NoMemory>
    ensures ok { OnOk result (out.new ≡ out.old ++ dict_text entries.now) }
    ensures grew { Grew out.old out.new }
{
    if let [first, rest @ ..] = entries {
        add_entry(out, first.0.as_slice(), &first.1)?;
        for entry in rest {
            add(out, b", ")?;
            add_entry(out, entry.0.as_slice(), &entry.1)?;
        }
    }
    Ok(())
}

#[cycle(add_attr)]
#[tactic(auto, using(crate::proofs::ShownLaws::shown_laws))]
fn add_entry(out: &mut Bytes, name: &[u8], a: &AttrTree) -> Result<(), NoMemory>
    ensures ok { OnOk result (out.new ≡ out.old ++ entry_text (name.now, shown a.now)) }
    ensures grew { Grew out.old out.new }
{
    add_name(out, name)?;
    add_value(out, a)
}

#[cycle(add_attr)]
#[tactic(auto, using(crate::proofs::ShownLaws::shown_laws))]
fn add_value(out: &mut Bytes, a: &AttrTree) -> Result<(), NoMemory>
    ensures ok { OnOk result (out.new ≡ out.old ++ value_text (shown a.now).is_unit (shown a.now).text) }
    ensures grew { Grew out.old out.new }
{
    if is_unit(a) {
        return Ok(());
    }
    add(out, b" = ")?;
    add_attr(out, a)
}

fn is_unit(a: &AttrTree) -> bool
    ensures { result ≡ (shown a.now).is_unit }
{
    match a {
        AttrTree::Unit => true,
        _ => false,
    }
}

fn is_bit(t: &TypeTree) -> bool
    ensures { result ≡ is_bit t.now }
{
    match t {
        TypeTree::Int(width) => *width == 1,
        _ => false,
    }
}

fn add_integer(out: &mut Bytes, value: i64, t: &TypeTree) -> Result<(), NoMemory>
    ensures ok { OnOk result (out.new ≡ out.old ++ integer_text value t.now) }
    ensures grew { Grew out.old out.new }
{
    if is_bit(t) {
        return add_bit(out, value);
    }
    add_signed(out, value)?;
    add(out, b" : ")?;
    add_type(out, false, t)
}

fn add_bit(out: &mut Bytes, value: i64) -> Result<(), NoMemory>
    ensures ok { OnOk result (out.new ≡ out.old ++ bit_text value) }
    ensures grew { Grew out.old out.new }
{
    if value == 0 {
        return add(out, b"false");
    }
    add(out, b"true")
}

fn add_numbers(out: &mut Bytes, numbers: &[i64]) -> Result<(), NoMemory>
    ensures ok { OnOk result (out.new ≡ out.old ++ numbers_text numbers.now) }
    ensures grew { Grew out.old out.new }
{
    if let [first, rest @ ..] = numbers {
        add(out, b": ")?;
        add_signed(out, *first)?;
        for n in rest {
            add(out, b", ")?;
            add_signed(out, *n)?;
        }
    }
    Ok(())
}

fn add_words(out: &mut Bytes, words: &[Name]) -> Result<(), NoMemory>
    ensures ok { OnOk result (out.new ≡ out.old ++ words_text words.now) }
    ensures grew { Grew out.old out.new }
{
    if let [_, ..] = words {
        add(out, b"<")?;
        add_joined(out, words)?;
        add(out, b">")?;
    }
    Ok(())
}

fn add_joined(out: &mut Bytes, words: &[Name]) -> Result<(), NoMemory>
    ensures ok { OnOk result (out.new ≡ out.old ++ joined (codes ", ") words.now) }
    ensures grew { Grew out.old out.new }
{
    if let [first, rest @ ..] = words {
        add(out, first.as_slice())?;
        for word in rest {
            add(out, b", ")?;
            add(out, word.as_slice())?;
        }
    }
    Ok(())
}
