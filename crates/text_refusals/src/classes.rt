//! What the operations of a text are, by their names.

ghost use Rattle.std.specs.Prelude.{◌≡◌, ◌<◌, ◌++◌, ℕ, true, IfOk, IfSome, List, get_or, length, map, slice_get, take};
ghost use Rattle.std.specs.Str.{bytes_eq};
ghost use Rattle.text_grammar.specs.declared.words.Word.{Word};
ghost use Rattle.text_events.specs.Names.{names_of};
ghost use Rattle.text_refusals.specs.Classes.{classes_of, is_text, operation_class, word_class};

use op_catalog::row;
use std::alloc::{AllocError, Global};
use text_events::spelled_word;
use text_grammar::{Kind, Word};
use text_scopes::Class;
use tree_model::Name;

/// Whether two texts have the same bytes.
fn same(one: &[u8], other: &[u8]) -> bool
    ensures { result ≡ bytes_eq one.now other.now }
{
    one == other
}

/// What an operation of this name is.
#[tactic(auto, unfolding(crate::specs::Classes::operation_class))]
fn operation_class(alloc: Global, bytes: &[u8]) -> Result<Class, AllocError>
    ensures { IfOk result (λ c. c ≡ operation_class bytes.now) }
{
    if same(bytes, b"builtin.module") {
        return Ok(Class::Module);
    }
    if same(bytes, b"func.func") || same(bytes, b"llvm.func") {
        return Ok(Class::Function);
    }
    let name = Name::from_slice(alloc, bytes)?;
    if row(&name).is_some() {
        Ok(Class::Known)
    } else {
        Ok(Class::Unknown)
    }
}

fn is_text(kind: Kind) -> bool
    ensures { result ≡ is_text kind }
{
    matches!(kind, Kind::Text)
}

fn word_class(alloc: Global, text: &[u8], word: Word) -> Result<Class, AllocError>
    ensures { IfOk result (λ c. c ≡ word_class text.now word) }
{
    if !is_text(word.kind) {
        return Ok(Class::Unknown);
    }
    let bytes = spelled_word(alloc, text, word)?;
    operation_class(alloc, &bytes)
}

/// What each word is, where it names an operation, by the numbers of their names.
pub fn classes(
    alloc: Global,
    text: &[u8],
    words: &[Word],
    names: &[u32],
) -> Result<Vec<Class>, AllocError>
    requires { names.now ≡ names_of text.now words.now }
    ensures { IfOk result (λ v. v.items ≡ classes_of text.now words.now) }
{
    let mut classes = Vec::with_capacity(alloc, words.len())?;
    'each: for index in 0..words.len() {
        let class = class_at(alloc, text, words, names, &classes, index)?;
        classes.push(class)?;
    }
    Ok(classes)
}

/// What the word is, where these are those before it: what it spells is looked up where no string before it spells the same.
fn class_at(
    alloc: Global,
    text: &[u8],
    words: &[Word],
    names: &[u32],
    classes: &[Class],
    index: usize,
) -> Result<Class, AllocError>
    requires names { names.now ≡ names_of text.now words.now }
    requires before { classes.now ≡ map (word_class text.now) (take index words.now) }
    requires within { index < length words.now }
    ensures { (d : Word) → IfOk result (λ c. c ≡ word_class text.now (get_or words.now index d)) }
{
    let word = words[index];
    if !is_text(word.kind) {
        return Ok(Class::Unknown);
    }
    match class_before(words, names, classes, index) {
        Some(class) => Ok(class),
        None => word_class(alloc, text, word),
    }
}

/// What the first word is that spells the same, where it is a string before this one.
fn class_before(words: &[Word], names: &[u32], classes: &[Class], index: usize) -> Option<Class>
    ensures { (text : List ℕ) (d : Word) → names.now ≡ names_of text words.now → classes.now ≡ map (word_class text) (take index words.now) → index < length words.now
        → is_text (get_or words.now index d).kind ≡ true → IfSome result (λ c. c ≡ word_class text (get_or words.now index d)) }
{
    let first = name_at(names, index)?;
    if first >= index {
        return None;
    }
    if !is_text(word_at(words, first)?.kind) {
        return None;
    }
    at(classes, first)
}

fn name_at(names: &[u32], index: usize) -> Option<usize>
    ensures { result ≡ slice_get names.now index }
{
    match names.get(index) {
        Some(name) => Some(*name as usize),
        None => None,
    }
}

fn word_at(words: &[Word], index: usize) -> Option<Word>
    ensures { result ≡ slice_get words.now index }
{
    words.get(index).copied()
}

fn at(classes: &[Class], index: usize) -> Option<Class>
    ensures { result ≡ slice_get classes.now index }
{
    classes.get(index).copied()
}
