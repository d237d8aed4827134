//! All kinds that need no types.

ghost use Rattle.std.specs.Prelude.{◌≡◌, ◌<◌, ◌^◌, ◌∷◌, [], ◌++◌, IfOk, length};
ghost use Rattle.text_scopes.specs.Bodies.{class_in};
ghost use Rattle.text_scopes.specs.Tables.{first_redefined};
ghost use Rattle.text_kinds.specs.Plain.{found_at, plain_kinds};
ghost use Rattle.text_kinds.specs.Classes.{first_unknown};
ghost use Rattle.text_kinds.specs.Shapes.{first_misplaced, refused_module};
ghost use Rattle.text_kinds.specs.Tallies.{first_over};

use crate::found::{Found, Kind};
use crate::limits::{Limit, first_over};
use crate::misplaced::first_misplaced;
use crate::shape::refused_module;
use crate::unknown::first_unknown;
use std::alloc::{AllocError, Global};
use text_events::Event;
use text_scopes::{Class, Names, first_redefined};

/// Where each of them stands first.
pub fn plain_kinds(
    alloc: Global,
    classes: &[Class],
    allowed: bool,
    events: &[Event],
) -> Result<Vec<Option<Found>>, AllocError>
    requires { length events.now < 2 ^ 32 }
    ensures { IfOk result (λ v. v.items ≡ plain_kinds (class_in classes.now) allowed events.now) }
{
    let mut all = Vec::with_capacity(alloc, 13)?;
    put_operations(&mut all, classes, allowed, events)?;
    put_values(alloc, &mut all, classes, events)?;
    put_aliases(alloc, &mut all, classes, events)?;
    put_limits(&mut all, classes, events)?;
    Ok(all)
}

fn found_at(kind: Kind, place: Option<usize>) -> Option<Found>
    ensures { result ≡ found_at kind place }
{
    match place {
        Some(place) => Some(Found { place, kind }),
        None => None,
    }
}

fn put_operations(
    all: &mut Vec<Option<Found>>,
    classes: &[Class],
    allowed: bool,
    events: &[Event],
) -> Result<(), AllocError>
    requires { length events.now < 2 ^ 32 }
    ensures { IfOk result (λ u. all.new.items ≡ all.old.items ++ found_at Kind.ModuleShape (first_misplaced (class_in classes.now) events.now) ∷ found_at Kind.ModuleShape (refused_module (class_in classes.now) events.now) ∷ found_at Kind.UnknownOperation (first_unknown (class_in classes.now) allowed events.now) ∷ []) }
{
    all.push(found_at(Kind::ModuleShape, first_misplaced(classes, events)))?;
    all.push(found_at(Kind::ModuleShape, refused_module(classes, events)))?;
    all.push(found_at(
        Kind::UnknownOperation,
        first_unknown(classes, allowed, events),
    ))?;
    Ok(())
}

fn put_values(
    alloc: Global,
    all: &mut Vec<Option<Found>>,
    classes: &[Class],
    events: &[Event],
) -> Result<(), AllocError>
    requires { length events.now < 2 ^ 32 }
    ensures { IfOk result (λ u. all.new.items ≡ all.old.items ++ found_at Kind.RedefinedValue (first_redefined Names.Values (class_in classes.now) events.now) ∷ found_at Kind.RedefinedBlock (first_redefined Names.Labels (class_in classes.now) events.now) ∷ []) }
{
    let value = first_redefined(alloc, Names::Values, classes, events)?;
    let block = first_redefined(alloc, Names::Labels, classes, events)?;
    all.push(found_at(Kind::RedefinedValue, value))?;
    all.push(found_at(Kind::RedefinedBlock, block))?;
    Ok(())
}

fn put_aliases(
    alloc: Global,
    all: &mut Vec<Option<Found>>,
    classes: &[Class],
    events: &[Event],
) -> Result<(), AllocError>
    requires { length events.now < 2 ^ 32 }
    ensures { IfOk result (λ u. all.new.items ≡ all.old.items ++ found_at Kind.RedefinedAlias (first_redefined Names.TypeAliases (class_in classes.now) events.now) ∷ found_at Kind.RedefinedAlias (first_redefined Names.AttrAliases (class_in classes.now) events.now) ∷ found_at Kind.DuplicateAttr (first_redefined Names.Entries (class_in classes.now) events.now) ∷ []) }
{
    let types = first_redefined(alloc, Names::TypeAliases, classes, events)?;
    let attrs = first_redefined(alloc, Names::AttrAliases, classes, events)?;
    let entry = first_redefined(alloc, Names::Entries, classes, events)?;
    all.push(found_at(Kind::RedefinedAlias, types))?;
    all.push(found_at(Kind::RedefinedAlias, attrs))?;
    all.push(found_at(Kind::DuplicateAttr, entry))?;
    Ok(())
}

fn put_limits(
    all: &mut Vec<Option<Found>>,
    classes: &[Class],
    events: &[Event],
) -> Result<(), AllocError>
    requires { length events.now < 2 ^ 32 }
    ensures { IfOk result (λ u. all.new.items ≡ all.old.items ++ found_at Kind.RegionDepth (first_over Limit.RegionDepth (class_in classes.now) events.now) ∷ found_at Kind.Functions (first_over Limit.Functions (class_in classes.now) events.now) ∷ found_at Kind.Blocks (first_over Limit.Blocks (class_in classes.now) events.now) ∷ found_at Kind.Operands (first_over Limit.Operands (class_in classes.now) events.now) ∷ found_at Kind.Operations (first_over Limit.Operations (class_in classes.now) events.now) ∷ []) }
{
    all.push(found_at(
        Kind::RegionDepth,
        first_over(Limit::RegionDepth, classes, events),
    ))?;
    all.push(found_at(
        Kind::Functions,
        first_over(Limit::Functions, classes, events),
    ))?;
    all.push(found_at(Kind::Blocks, first_over(Limit::Blocks, classes, events)))?;
    all.push(found_at(Kind::Operands, first_over(Limit::Operands, classes, events)))?;
    all.push(found_at(
        Kind::Operations,
        first_over(Limit::Operations, classes, events),
    ))?;
    Ok(())
}
