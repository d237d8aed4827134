//! The depths that are found so far.

ghost use Rattle.std.specs.Prelude.{◌≡◌, ℕ, List, Option, OnOk, IfOk, if◌then◌else◌};
ghost use Rattle.std.specs.Str.{bytes_eq};
ghost use Rattle.std.specs.HashMap.{get};
ghost use Rattle.std.specs.HashSet.{contains};
ghost use Rattle.conversion_model.specs.Chosen.{shallower};
ghost use Rattle.legal_graph.specs.Depths.{greatest_of, level, own_depth};

use crate::infos::PatternInfo;
use std::alloc::{AllocError, Global};
use std::collections::{HashMap, HashSet};
use tree_model::{Name, NoMemory};

/// The depth of a name: 0 where it is legal, else what is found.
pub fn depth_at(legal: &HashSet<Name>, found: &HashMap<Name, u32>, name: &Name) -> Option<u32>
    ensures { result ≡ level (contains bytes_eq legal.now) (get bytes_eq found.now) name.now }
{
    if legal.contains(name) {
        return Some(0);
    }
    found.get(name).copied()
}

/// The greatest depth of names, none where one has none.
pub fn greatest_depth(
    legal: &HashSet<Name>,
    found: &HashMap<Name, u32>,
    names: &[Name],
) -> Option<u32>
    ensures { result ≡ greatest_of (level (contains bytes_eq legal.now) (get bytes_eq found.now)) names.now }
{
    let mut most = 0;
    for name in names {
        match depth_at(legal, found, name) {
            Some(depth) => most = most.max(depth),
            None => return None,
        }
    }
    Some(most)
}

/// The depth of a pattern, which is one more than the greatest of what it may make.
pub fn pattern_depth(
    legal: &HashSet<Name>,
    found: &HashMap<Name, u32>,
    info: &PatternInfo,
) -> Result<Option<u32>, NoMemory>
    ensures { IfOk result (λ d. d ≡ own_depth (level (contains bytes_eq legal.now) (get bytes_eq found.now)) info.now) }
{
    match greatest_depth(legal, found, info.products.as_slice()) {
        None => Ok(None),
        Some(most) => match most.checked_add(1) {
            Some(depth) => Ok(Some(depth)),
            None => Err(AllocError),
        },
    }
}

/// The lesser of two depths, where none is more than any.
pub fn lesser(a: Option<u32>, b: Option<u32>) -> Option<u32>
    ensures { result ≡ shallower a b }
{
    match (a, b) {
        (Some(m), Some(n)) => Some(m.min(n)),
        (Some(m), None) => Some(m),
        (None, other) => other,
    }
}

/// A name has at most this depth.
pub fn put_depth(
    alloc: Global,
    found: &mut HashMap<Name, u32>,
    name: &Name,
    depth: Option<u32>,
) -> Result<(), NoMemory>
    ensures { OnOk result ((q : List ℕ) → get bytes_eq found.new q ≡ (if bytes_eq name.now q then shallower depth (get bytes_eq found.old q) else get bytes_eq found.old q)) }
{
    let was = found.get(name).copied();
    if let Some(least) = lesser(depth, was) {
        let name = name.copy(alloc)?;
        found.insert(name, least)?;
    }
    Ok(())
}
