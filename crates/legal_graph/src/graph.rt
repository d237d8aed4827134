//! The graph: what is found once and asked often.

ghost use Rattle.std.specs.Prelude.{◌≡◌, ℕ, List, IfOk, OnOk, ◌++◌, ◌||◌, map};
ghost use Rattle.std.specs.Str.{bytes_eq};
ghost use Rattle.std.specs.HashSet.{contains};
ghost use Rattle.conversion_model.specs.Chosen.{Ranked, depth as depth_of_name, order as order_of_name};
ghost use Rattle.conversion_model.specs.Rows.{Pattern};
ghost use Rattle.conversion_model.specs.Targets.{Target};
ghost use Rattle.legal_graph.specs.Depths.{is_among};
ghost use Rattle.legal_graph.specs.Graphs.{Allows, depth_in_graph, info_of, order_in_graph};

use crate::found::depth_at;
use crate::infos::{LegalNames, PatternInfo};
use crate::places::orders;
use crate::ranks::ranks_of;
use crate::rounds::depths;
use std::alloc::Global;
use std::collections::{HashMap, HashSet};
use tree_model::{Name, NoMemory};

/// How deep the derivations of each name are, and in which order its patterns are tried.
#[derive(Drop)]
pub struct Graph {
    legal: HashSet<Name>,
    found: HashMap<Name, u32>,
    orders: HashMap<Name, Vec<u32>>,
}

/// Names go into a set.
fn put_names(alloc: Global, set: &mut HashSet<Name>, names: &[Name]) -> Result<(), NoMemory>
    ensures { OnOk result ((q : List ℕ) → contains bytes_eq set.new q ≡ (is_among names.now q || contains bytes_eq set.old q)) }
{
    'each: for name in names {
        set.insert(name.copy(alloc)?)?;
    }
    Ok(())
}

fn legal_set(alloc: Global, names: &LegalNames) -> Result<HashSet<Name>, NoMemory>
    ensures { IfOk result (λ s. (q : List ℕ) → contains bytes_eq s q ≡ (is_among names.now.always q || is_among names.now.dynamic q)) }
{
    let mut legal = HashSet::new(alloc);
    put_names(alloc, &mut legal, names.dynamic.as_slice())?;
    put_names(alloc, &mut legal, names.always.as_slice())?;
    Ok(legal)
}

impl Graph {
    /// The graph of patterns that say this of themselves, where these names are legal. More than 2^32 patterns are want
    /// of memory.
    pub fn of(alloc: Global, infos: &[PatternInfo], names: &LegalNames) -> Result<Graph, NoMemory>
        ensures depths { IfOk result (λ g. (target : Target) (table : List Pattern) → Allows target names.now → map info_of table ≡ infos.now → (name : List ℕ) → depth_in_graph g name ≡ depth_of_name target table name) }
        ensures orders { IfOk result (λ g. (target : Target) (table : List Pattern) → Allows target names.now → map info_of table ≡ infos.now → (name : List ℕ) → order_in_graph g name ≡ map (λ (r : Ranked). r.place) (order_of_name target table name)) }
    {
        let legal = legal_set(alloc, names)?;
        let found = depths(alloc, infos, &legal)?;
        let ranks = ranks_of(alloc, infos, &legal, &found)?;
        let orders = orders(alloc, infos, ranks.as_slice())?;
        Ok(Graph {
            legal,
            found,
            orders,
        })
    }

    /// The depth of a name, none where no derivation of it ends.
    pub fn depth(&self, name: &Name) -> Option<u32>
        ensures { result ≡ depth_in_graph self.now name.now }
    {
        depth_at(&self.legal, &self.found, name)
    }

    /// The places of all patterns with that root, in the order in which they are tried.
    pub fn order(&self, name: &Name) -> &[u32]
        ensures { result.now ≡ order_in_graph self.now name.now }
    {
        match self.orders.get(name) {
            Some(places) => places.as_slice(),
            None => &[],
        }
    }
}
