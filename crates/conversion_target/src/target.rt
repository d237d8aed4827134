//! Targets.

ghost use Rattle.std.specs.Prelude.{◌≡◌, length};

use crate::rule::LegalRule;
use legal_graph::LegalNames;
use tree_model::NameList;

/// What a pass wants: the first of the three lists that has a name decides.
#[derive(Drop)]
pub struct Target {
    pub(crate) names: LegalNames,
    pub(crate) rules: Vec<LegalRule>,
    pub(crate) illegal: NameList,
    pub ghost as_many: { length rules.items ≡ length names.dynamic },
}
