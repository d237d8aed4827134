//! Rolls the printed text of an attribute into a hash.
#![tactic(auto)]

ghost use Rattle.std.specs.Prelude.{◌≡◌, ◌++◌, map, codes};
ghost use Rattle.tree_text.specs.Joined.{joined};
ghost use Rattle.tree_text.specs.AttrText.{shown, is_bit, integer_text, dict_text, entry_text, numbers_text, words_text, value_text, bit_text};
ghost use Rattle.key_model.specs.Rolled.{rolled};

use crate::roll::{roll, roll_number, roll_signed};
use crate::roll_name::{roll_name, roll_string};
use crate::roll_type::roll_type;
use tree_model::{AttrTree, Name, TypeTree};

#[cycle(roll_attr)]
#[tactic(auto, using(crate::proofs::RollLaws::attr_laws))]
pub fn roll_attr(out: &mut u32, a: &AttrTree)
    ensures { out.new ≡ rolled out.old ((shown a.now).text) }
{
    match a {
        AttrTree::Unit => roll(out, b"unit"),
        AttrTree::Int(value, t) => roll_integer(out, *value, t),
        AttrTree::Str(text) => roll_string(out, text.as_slice()),
        AttrTree::List(items) => {
            roll(out, b"[");
            roll_attrs(out, items.as_slice());
            roll(out, b"]");
        }
        AttrTree::Dict(entries) => {
            roll(out, b"{");
            roll_dict(out, entries.as_slice());
            roll(out, b"}");
        }
        AttrTree::OfType(t) => roll_type(out, false, t),
        AttrTree::Symbol(name) => {
            roll(out, b"@");
            roll_name(out, name.as_slice());
        }
        AttrTree::Ints(width, numbers) => {
            roll(out, b"array<i");
            roll_number(out, u64::from(*width));
            roll_numbers(out, numbers.as_slice());
            roll(out, b">");
        }
        AttrTree::Dialect(name, words) => {
            roll(out, b"#");
            roll(out, name.as_slice());
            roll_words(out, words.as_slice());
        }
    }
}

#[cycle(roll_attr)]
#[tactic(auto, using(crate::proofs::RollLaws::attr_laws))]
fn roll_attrs(out: &mut u32, attrs: &[AttrTree])
    ensures { out.new ≡ rolled out.old (joined (codes ", ") (map (λ s. s.text) (map shown attrs.now))) }
{
    if let [first, rest @ ..] = attrs {
        roll_attr(out, first);
        for a in rest {
            roll(out, b", ");
            roll_attr(out, a);
        }
    }
}

#[cycle(roll_attr)]
#[tactic(auto, using(crate::proofs::RollLaws::attr_laws))]
fn roll_dict(out: &mut u32, entries: &[(Name, AttrTree)])
    ensures { out.new ≡ rolled out.old (dict_text entries.now) }
{
    if let [first, rest @ ..] = entries {
        roll_entry(out, first.0.as_slice(), &first.1);
        for entry in rest {
            roll(out, b", ");
            roll_entry(out, entry.0.as_slice(), &entry.1);
        }
    }
}

#[cycle(roll_attr)]
#[tactic(auto, using(crate::proofs::RollLaws::attr_laws))]
fn roll_entry(out: &mut u32, name: &[u8], a: &AttrTree)
    ensures { out.new ≡ rolled out.old (entry_text (name.now, shown a.now)) }
{
    roll_name(out, name);
    roll_value(out, a);
}

#[cycle(roll_attr)]
#[tactic(auto, using(crate::proofs::RollLaws::attr_laws))]
fn roll_value(out: &mut u32, a: &AttrTree)
    ensures { out.new ≡ rolled out.old (value_text (shown a.now).is_unit (shown a.now).text) }
{
    if is_unit(a) {
        return;
    }
    roll(out, b" = ");
    roll_attr(out, a);
}

fn is_unit(a: &AttrTree) -> bool
    ensures { result ≡ (shown a.now).is_unit }
{
    match a {
        AttrTree::Unit => true,
        _ => false,
    }
}

fn is_bit(t: &TypeTree) -> bool
    ensures { result ≡ is_bit t.now }
{
    match t {
        TypeTree::Int(width) => *width == 1,
        _ => false,
    }
}

fn roll_integer(out: &mut u32, value: i64, t: &TypeTree)
    ensures { out.new ≡ rolled out.old (integer_text value t.now) }
{
    if is_bit(t) {
        roll_bit(out, value);
        return;
    }
    roll_signed(out, value);
    roll(out, b" : ");
    roll_type(out, false, t);
}

fn roll_bit(out: &mut u32, value: i64)
    ensures { out.new ≡ rolled out.old (bit_text value) }
{
    if value == 0 {
        roll(out, b"false");
        return;
    }
    roll(out, b"true");
}

fn roll_numbers(out: &mut u32, numbers: &[i64])
    ensures { out.new ≡ rolled out.old (numbers_text numbers.now) }
{
    if let [first, rest @ ..] = numbers {
        roll(out, b": ");
        roll_signed(out, *first);
        for n in rest {
            roll(out, b", ");
            roll_signed(out, *n);
        }
    }
}

fn roll_words(out: &mut u32, words: &[Name])
    ensures { out.new ≡ rolled out.old (words_text words.now) }
{
    if let [_, ..] = words {
        roll(out, b"<");
        roll_joined(out, words);
        roll(out, b">");
    }
}

fn roll_joined(out: &mut u32, words: &[Name])
    ensures { out.new ≡ rolled out.old (joined (codes ", ") words.now) }
{
    if let [first, rest @ ..] = words {
        roll(out, first.as_slice());
        for word in rest {
            roll(out, b", ");
            roll(out, word.as_slice());
        }
    }
}
