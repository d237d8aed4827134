//! What an operation is for reconciliation.
#![tactic(auto, using(crate::proofs::Layers::layers))]

ghost use Rattle.std.specs.Prelude.{◌≡◌, codes};
ghost use Rattle.std.specs.List.{list_all};
ghost use Rattle.tree_reconcile.specs.Lines.{has_none_at, is_bare_at, line_at};

use tree_model::{Name, OpTree};

#[tactic(auto, unfolding(tree_model::specs::Known::known_text, tree_model::specs::Known::known))]
fn cast_name() -> Name
    ensures { result ≡ codes "builtin.unrealized_conversion_cast" }
{
    Name::known(1)
}

/// Whether an operation is a cast.
pub(crate) fn is_cast(op: &OpTree) -> bool
    ensures { result ≡ (line_at op.now).is_cast }
{
    let name = cast_name();
    op.name == name
}

fn has_no_regions(op: &OpTree) -> bool
    ensures { result ≡ has_none_at op.now }
{
    op.regions.as_slice().is_empty()
}

// Whether an operation has no regions, if it is a cast.
#[tactic(auto)]
fn is_bare(op: &OpTree) -> bool
    ensures { result ≡ is_bare_at op.now }
{
    !is_cast(op) || has_no_regions(op)
}

/// Whether no cast has regions.
#[tactic(auto)]
pub(crate) fn are_bare(ops: &[&OpTree]) -> bool
    ensures { result ≡ list_all (λ o. is_bare_at o.now) ops.now }
{
    ops.iter().all(|op| is_bare(op))
}
