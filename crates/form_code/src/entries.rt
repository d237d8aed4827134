//! The entries of dictionaries, by their names.

ghost use Rattle.std.specs.Prelude.{◌≡◌, ◌<◌};
ghost use Rattle.std.specs.Option.{option_copied};
ghost use Rattle.std.specs.List.{list_any};
ghost use Rattle.std.specs.Str.{bytes_eq};
ghost use Rattle.tree_model.specs.Known.{known_text};
ghost use Rattle.form_model.specs.Properties as model;

use tree_model::{AttrTree, Name};

/// The entry of this name.
pub fn property<'a>(name: &Name, entries: &'a [(Name, AttrTree)]) -> Option<&'a AttrTree>
    ensures { option_copied result ≡ model.property name.now entries.now }
{
    for entry in entries {
        if entry.0 == *name {
            return Some(&entry.1);
        }
    }
    None
}

/// Whether the name is one of the words.
pub fn has_word(name: &Name, words: &[Name]) -> bool
    ensures { result ≡ list_any (bytes_eq name.now) words.now }
{
    for word in words {
        if *name == *word {
            return true;
        }
    }
    false
}
