//! The names of operations, of entries and of dialects' attributes, and the words in these.

ghost use Rattle.std.specs.Prelude.{◌≡◌, ◌<◌, ℕ, List, IfNone, IfOk, IfSome};
ghost use Rattle.tree_model.specs.Known.{StandsAt, IsUnknown, known_text, known_count};

use crate::bytes::{Bytes, NoMemory};
use crate::known::{known_number, known_text};
use std::alloc::Global;
use std::hash::{Hash, Hasher};
use std::marker::Model;

/// A name, which contracts see as the list of its bytes. One of [`KNOWN`](crate::KNOWN) takes no memory of
/// its own, and two of these are compared by their numbers.
#[derive(Debug, Drop)]
pub struct Name {
    form: Form,
}

// A known name by its number, or the bytes of another one.
#[derive(Debug, Drop)]
enum Form {
    Known(u8),
    Other(Bytes),
}

impl Model for Name {
    ghost use Rattle.std.specs.Prelude.{ℕ, List};
    ghost use Rattle.std.specs.Coded.{coded_list, coded_ℕ};

    ghost Value = { List ℕ };

    ghost coded = { coded_list coded_ℕ };

    ghost use Rattle.tree_model.specs.Forms.{text_of, IsCanonical};

    ghost view = { λ n. text_of n.form };

    ghost invariant = { λ n. IsCanonical n.form };
}

impl PartialEq for Name {
    ghost use Rattle.std.specs.Cmp.{partial_equiv_from_equiv};
    ghost use Rattle.std.specs.Cmp.Lexicographic.{nat_list_eq_equiv};
    ghost use Rattle.std.specs.Str.{bytes_eq};

    ghost eq = { bytes_eq };

    ghost laws = { partial_equiv_from_equiv nat_list_eq_equiv };

    fn eq(&self, other: &Name) -> bool {
        match (&self.form, &other.form) {
            (Form::Known(a), Form::Known(b)) => a == b,
            (Form::Other(a), Form::Other(b)) => a == b,
            _ => false,
        }
    }
}

impl Eq for Name {
    ghost use Rattle.std.specs.Cmp.Lexicographic.{nat_list_eq_equiv};

    ghost laws = { nat_list_eq_equiv };
}

impl Hash for Name {
    ghost use Rattle.std.proofs.Common.{ap};
    ghost use Rattle.std.proofs.lemmas.Slice.Eq.{bytes_eq-Decides};
    ghost use Rattle.std.specs.Hash as fed;

    ghost hash_input = { λ n. fed.slice fed.u8 n };

    ghost respects_eq = { λ x y same. ap (fed.slice fed.u8) ((bytes_eq-Decides x y).0 same) };

    fn hash<H: Hasher>(&self, state: &mut H) {
        self.as_slice().hash(state);
    }
}

impl Name {
    /// The name of these bytes.
    pub fn from_slice(alloc: Global, text: &[u8]) -> Result<Name, NoMemory>
        ensures { IfOk result (λ name. name ≡ text.now) }
    {
        match known_number(text) {
            Some(number) => Ok(Name {
                form: Form::Known(number),
            }),
            None => {
                let text = Bytes::from_slice(alloc, text)?;
                Ok(Name {
                    form: Form::Other(text),
                })
            }
        }
    }

    /// The known name with this number, its place in [`KNOWN`](crate::KNOWN).
    pub fn known(number: u8) -> Name
        requires { number < known_count }
        ensures { result ≡ known_text number }
    {
        Name {
            form: Form::Known(number),
        }
    }

    /// The number of a known name.
    pub fn number(&self) -> Option<u8>
        ensures known { IfSome result (λ number. StandsAt number self.now) }
        ensures unknown { IfNone result (IsUnknown self.now) }
    {
        match &self.form {
            Form::Known(number) => Some(*number),
            Form::Other(_) => None,
        }
    }

    /// The same name.
    pub fn copy(&self, alloc: Global) -> Result<Name, NoMemory>
        ensures { IfOk result (λ name. name ≡ self.now) }
    {
        match &self.form {
            Form::Known(number) => Ok(Name {
                form: Form::Known(*number),
            }),
            Form::Other(text) => {
                let text = text.copy(alloc)?;
                Ok(Name {
                    form: Form::Other(text),
                })
            }
        }
    }

    /// The bytes.
    pub fn as_slice(&self) -> &[u8]
        ensures { result.now ≡ self.now }
    {
        match &self.form {
            Form::Known(number) => known_text(*number),
            Form::Other(text) => text.as_slice(),
        }
    }
}
