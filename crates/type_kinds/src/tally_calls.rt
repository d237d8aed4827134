//! The calls of the sizes of aliases.

ghost use Rattle.std.specs.Prelude.{◌≡◌, ◌≤◌, ◌==◌, ℕ, None, OnOk, false};
ghost use Rattle.text_types.specs.Aliases.{is_start};
ghost use Rattle.type_kinds.specs.Sizes.{alias_at, moved, no_sizes, noted, size_in, sizes_of};

use crate::begins::is_minus;
use crate::tally::Tally;
use std::alloc::{AllocError, Global};
use std::collections::HashMap;
use text_events::Event;
use text_grammar::Place;

/// Whether an operation or the definition of an alias begins at the place.
fn is_start(place: Place) -> bool
    ensures { result ≡ is_start place }
{
    match place {
        Place::OpName | Place::ResultName | Place::TypeAliasName | Place::AttrAliasName => true,
        _ => false,
    }
}

/// The alias whose definition begins at the event.
fn alias_at(event: Event) -> Option<u32>
    ensures { result ≡ alias_at event }
{
    match event.place {
        Place::TypeAliasName | Place::AttrAliasName => Some(event.name),
        _ => None,
    }
}

impl Tally {
    /// No alias.
    pub(crate) fn new(alloc: Global) -> Tally
        ensures { sizes_of result ≡ no_sizes }
    {
        Tally {
            sizes: HashMap::new(alloc),
            alias: None,
            amount: 0,
            minus: false,
        }
    }

    /// The size of an alias, 0 for none.
    #[inline(always)]
    pub(crate) fn size(&self, name: u32) -> u32
        ensures { result ≡ size_in self.now name }
    {
        self.sizes.get(&name).copied().unwrap_or(0)
    }

    /// Notes the size of the alias that ends.
    fn note(&mut self) -> Result<(), AllocError>
        ensures { OnOk result ((other : ℕ) → size_in self.new other ≡ noted self.old.alias self.old.amount (size_in self.old) other) }
    {
        if let Some(name) = self.alias {
            self.sizes.insert(name, self.amount)?;
        }
        Ok(())
    }

    /// Passes an event, where the alias has this amount with it.
    #[inline(always)]
    pub(crate) fn pass(&mut self, event: Event, amount: u32) -> Result<(), AllocError>
        ensures moved { OnOk result (sizes_of self.new ≡ moved (sizes_of self.old) event amount) }
        ensures amount { OnOk result (self.new.amount ≤ amount) }
    {
        if is_start(event.place) {
            self.note()?;
            self.alias = alias_at(event);
            self.amount = 0;
            self.minus = false;
        } else {
            self.amount = amount;
            self.minus = is_minus(event.place);
        }
        Ok(())
    }
}
