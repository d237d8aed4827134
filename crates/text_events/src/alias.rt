//! Aliases: which are defined, and as what.

ghost use Rattle.std.specs.Prelude.{◌≡◌, OnOk};
ghost use Rattle.text_events.specs.Aliases.{Aliases, aliases_behind, begun, class_at, class_of, alias_fault, known_behind, no_aliases, no_attribute, no_integer, no_type};
ghost use Rattle.text_events.specs.KnownAliases.{Agrees};

use crate::ending::EndKind;
use std::alloc::{AllocError, Global};
use std::collections::HashMap;
use text_grammar::Place;

/// What an alias was defined as.
#[derive(Clone, Copy, Drop)]
pub enum AliasClass {
    /// An integer type or `index`.
    Integer,
    /// Another type, or an attribute.
    Other,
    /// A location.
    Location,
}

/// The definition in which a word stands.
#[derive(Clone, Copy, Drop)]
pub enum Defining {
    Nothing,
    /// Of this alias, before its value.
    Named(u32),
    /// Of this alias, in its value.
    Valued(u32, AliasClass),
}

/// The aliases that are defined, by the numbers of their names, and the definition under way.
#[derive(Drop)]
pub struct AliasTable {
    known: HashMap<u32, AliasClass>,
    current: Defining,
}

impl AliasTable {
    pub fn new(alloc: Global) -> AliasTable
        ensures { Agrees no_aliases result }
    {
        AliasTable {
            known: HashMap::new(alloc),
            current: Defining::Nothing,
        }
    }

    fn class_of(&self, name: u32) -> Option<AliasClass>
        ensures { (a : Aliases) → Agrees a self.now → result ≡ class_of name a.known }
    {
        self.known.get(&name).copied()
    }

    /// Why looking ends at an alias of this name at this place, if it does.
    pub fn fault(&self, place: Place, name: u32) -> Option<EndKind>
        ensures { (a : Aliases) → Agrees a self.now → result ≡ alias_fault a.known place name }
    {
        match place {
            Place::TypeAlias => no_type(self.class_of(name)),
            Place::ElementAlias => no_integer(self.class_of(name)),
            Place::AttrAlias => no_attribute(self.class_of(name)),
            _ => None,
        }
    }

    fn class_at(&self, place: Place, name: u32) -> AliasClass
        ensures { (a : Aliases) → Agrees a self.now → result ≡ class_at place name a.known }
    {
        match place {
            Place::IntegerWord => AliasClass::Integer,
            Place::TypeAlias => match self.class_of(name) {
                Some(class) => class,
                None => AliasClass::Other,
            },
            Place::LocWord => AliasClass::Location,
            _ => AliasClass::Other,
        }
    }

    /// Puts the alias of the definition under way, where it has a value.
    fn end(&mut self) -> Result<(), AllocError>
        ensures { (a : Aliases) → Agrees a self.old → OnOk result (Agrees (record { known = known_behind a.current a.known; current = a.current }) self.new) }
    {
        match self.current {
            Defining::Valued(name, class) => {
                self.known.insert(name, class)?;
                Ok(())
            }
            _ => Ok(()),
        }
    }

    /// Ends the definition under way, and begins the next.
    fn begin(&mut self, next: Defining) -> Result<(), AllocError>
        ensures { (a : Aliases) → Agrees a self.old → OnOk result (Agrees (record { known = known_behind a.current a.known; current = next }) self.new) }
    {
        self.end()?;
        self.current = next;
        Ok(())
    }

    /// Goes behind a word of this name at this place.
    pub fn step(&mut self, place: Place, name: u32) -> Result<(), AllocError>
        ensures { (a : Aliases) → Agrees a self.old → OnOk result (Agrees (aliases_behind a place name) self.new) }
    {
        match place {
            Place::TypeAliasName | Place::AttrAliasName => self.begin(Defining::Named(name)),
            Place::OpName | Place::ResultName => self.begin(Defining::Nothing),
            Place::TypeAliasEquals | Place::AttrAliasEquals => Ok(()),
            _ => {
                self.enter(place, name);
                Ok(())
            }
        }
    }

    /// The word is the first of the value of a definition, where one waits for it.
    fn enter(&mut self, place: Place, name: u32)
        ensures { (a : Aliases) → Agrees a self.old → Agrees (record { known = a.known; current = begun a.current place name a.known }) self.new }
    {
        if let Defining::Named(alias) = self.current {
            let class = self.class_at(place, name);
            self.current = Defining::Valued(alias, class);
        }
    }
}

fn no_type(class: Option<AliasClass>) -> Option<EndKind>
    ensures { result ≡ no_type class }
{
    match class {
        None => Some(EndKind::UnknownAlias),
        Some(_) => None,
    }
}

fn no_integer(class: Option<AliasClass>) -> Option<EndKind>
    ensures { result ≡ no_integer class }
{
    match class {
        None => Some(EndKind::UnknownAlias),
        Some(AliasClass::Integer) => None,
        Some(_) => Some(EndKind::Expected),
    }
}

fn no_attribute(class: Option<AliasClass>) -> Option<EndKind>
    ensures { result ≡ no_attribute class }
{
    match class {
        None => Some(EndKind::UnknownAlias),
        Some(AliasClass::Location) => Some(EndKind::UnsupportedAttr),
        Some(_) => None,
    }
}
