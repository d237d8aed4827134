//! What targets answer.

ghost use Rattle.std.specs.Prelude.{◌≡◌, ℕ, List, IfOk, map, length, option_copied};
ghost use Rattle.conversion_model.specs.Chosen.{Ranked, depth, order};
ghost use Rattle.conversion_model.specs.Rows.{Pattern};
ghost use Rattle.conversion_model.specs.Targets.{is_legal as legal_by};
ghost use Rattle.conversion_target.specs.Targets.{legality_of, rule_in, target_of};
ghost use Rattle.legal_graph.specs.Depths.{is_among};
ghost use Rattle.legal_graph.specs.Graphs.{depth_in_graph, info_of, order_in_graph};
ghost use Rattle.row_code.specs.Shapes.{shape_of};

use crate::rule::{LegalRule, holds};
use crate::target::Target;
use legal_graph::{Graph, LegalNames, PatternInfo};
use row_code::ShapeTree;
use std::alloc::Global;
use tree_model::{Name, NameList, NoMemory};

/// What a target says of a name.
#[derive(Clone, Copy)]
pub enum Legality<'a> {
    Legal,
    Dynamic(&'a LegalRule),
    Illegal,
    Unknown,
}

fn has_name(names: &[Name], name: &Name) -> bool
    ensures { result ≡ is_among names.now name.now }
{
    'each: for other in names {
        if *other == *name {
            return true;
        }
    }
    false
}

fn rule_for<'a>(names: &[Name], rules: &'a [LegalRule], name: &Name) -> Option<&'a LegalRule>
    requires { length rules.now ≡ length names.now }
    ensures { option_copied result ≡ rule_in names.now rules.now name.now }
{
    'each: for place in 0..names.len() {
        if names[place] == *name {
            return Some(&rules[place]);
        }
    }
    None
}

impl Target {
    /// A target. Each dynamic name has its rule.
    pub fn new(names: LegalNames, rules: Vec<LegalRule>, illegal: NameList) -> Target
        requires { length rules.items ≡ length names.dynamic }
        ensures names { result.names ≡ names }
        ensures rules { result.rules.items ≡ rules.items }
        ensures illegal { result.illegal ≡ illegal }
    {
        Target {
            names,
            rules,
            illegal,
        }
    }

    /// What the target says of a name.
    pub fn legality(&self, name: &Name) -> Legality<'_>
        ensures { legality_of result ≡ target_of self.now name.now }
    {
        if has_name(self.names.always.as_slice(), name) {
            return Legality::Legal;
        }
        if let Some(rule) = rule_for(self.names.dynamic.as_slice(), self.rules.as_slice(), name) {
            return Legality::Dynamic(rule);
        }
        if has_name(self.illegal.as_slice(), name) {
            Legality::Illegal
        } else {
            Legality::Unknown
        }
    }

    /// Whether the target calls an operation legal: an unknown name isn't.
    pub fn is_legal(&self, shape: &ShapeTree) -> bool
        ensures { result ≡ legal_by (target_of self.now) (shape_of shape.now) }
    {
        match self.legality(&shape.name) {
            Legality::Legal => true,
            Legality::Dynamic(rule) => holds(rule, shape),
            Legality::Illegal => false,
            Legality::Unknown => false,
        }
    }

    /// The graph of legality of patterns that say this of themselves.
    pub fn graph(&self, alloc: Global, infos: &[PatternInfo]) -> Result<Graph, NoMemory>
        ensures depths { IfOk result (λ g. (table : List Pattern) → map info_of table ≡ infos.now → (name : List ℕ) → depth_in_graph g name ≡ depth (target_of self.now) table name) }
        ensures orders { IfOk result (λ g. (table : List Pattern) → map info_of table ≡ infos.now → (name : List ℕ) → order_in_graph g name ≡ map (λ (r : Ranked). r.place) (order (target_of self.now) table name)) }
    {
        let graph = Graph::of(alloc, infos, &self.names)?;
        Ok(graph)
    }
}
