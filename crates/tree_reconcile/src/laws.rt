//! Worked examples of the definition.

ghost use Rattle.tree_reconcile.specs.Examples.{Chain, TwoCasts};

/// Two casts of one value and a cast back from each.
pub fn law_two_casts()
    ensures { TwoCasts }
{}

/// A chain of casts back and forth.
pub fn law_chain()
    ensures { Chain }
{}
