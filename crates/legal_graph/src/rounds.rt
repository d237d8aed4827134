//! The depths of all names, round by round.

ghost use Rattle.std.specs.Prelude.{◌≡◌, ◌+◌, ℕ, List, Some, IfOk, IsTrue, length, slice_get};
ghost use Rattle.std.specs.Str.{bytes_eq};
ghost use Rattle.std.specs.HashMap.{get};
ghost use Rattle.std.specs.HashSet.{contains};
ghost use Rattle.legal_graph.specs.declared.infos.PatternInfo.{PatternInfo};
ghost use Rattle.legal_graph.specs.Depths.{depth_in, least_of, level};

use crate::found::{pattern_depth, put_depth};
use crate::infos::PatternInfo;
use std::alloc::Global;
use std::collections::{HashMap, HashSet};
use tree_model::{Name, NoMemory};

/// The least depth of the patterns of each name, where names have the depths that are found.
fn round(
    alloc: Global,
    infos: &[PatternInfo],
    legal: &HashSet<Name>,
    found: &HashMap<Name, u32>,
) -> Result<HashMap<Name, u32>, NoMemory>
    ensures { IfOk result (λ m. (q : List ℕ) → get bytes_eq m q ≡ least_of (level (contains bytes_eq legal.now) (get bytes_eq found.now)) infos.now q) }
{
    let mut next = HashMap::new(alloc);
    let mut index = infos.len();
    'each: while index > 0 {
        index -= 1;
        let info = &infos[index];
        let depth = pattern_depth(legal, found, info)?;
        put_depth(alloc, &mut next, &info.root, depth)?;
    }
    Ok(next)
}

/// Whether each root has one depth in both.
fn is_settled(infos: &[PatternInfo], found: &HashMap<Name, u32>, next: &HashMap<Name, u32>) -> bool
    ensures { IsTrue result → (k : ℕ) (p : PatternInfo) → slice_get infos.now k ≡ Some p → get bytes_eq found.now p.root ≡ get bytes_eq next.now p.root }
{
    'each: for info in infos {
        if found.get(&info.root).copied() != next.get(&info.root).copied() {
            return false;
        }
    }
    true
}

/// The depths that are found for all names. After as many rounds as there are patterns no depth changes any more.
pub fn depths(
    alloc: Global,
    infos: &[PatternInfo],
    legal: &HashSet<Name>,
) -> Result<HashMap<Name, u32>, NoMemory>
    ensures { IfOk result (λ m. (q : List ℕ) → level (contains bytes_eq legal.now) (get bytes_eq m) q ≡ depth_in (contains bytes_eq legal.now) infos.now (length infos.now + 1) q) }
{
    let mut found = round(alloc, infos, &HashSet::new(alloc), &HashMap::new(alloc))?;
    'rounds: for turn in 0..infos.len() {
        let next = round(alloc, infos, legal, &found)?;
        if is_settled(infos, &found, &next) {
            return Ok(found);
        }
        found = next;
    }
    Ok(found)
}
