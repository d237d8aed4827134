//! Sameness is an equivalence.

ghost use Rattle.tree_shape.specs.Laws.{IsReflexive, IsSymmetric, IsTransitive};

/// Every function is the same as itself.
pub fn law_same_is_reflexive()
    ensures { IsReflexive }
{}

/// Of two functions that are the same, it doesn't matter which is named first.
pub fn law_same_is_symmetric()
    ensures { IsSymmetric }
{}

/// Two functions that are the same as a third are the same.
pub fn law_same_is_transitive()
    ensures { IsTransitive }
{}
