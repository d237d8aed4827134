//! The refusal of a text: of all kinds that stand, the one at the least place; and what was found of the text on the way.
#![tactic(auto)]

ghost use Rattle.text_refusals.specs.Refusing.{RefusesOnce};

mod classes;
mod findings;
mod gathered;
mod places;
mod refusing;
mod spells;

pub use findings::Findings;
pub use refusing::{find, refusal};
pub use spells::Spells;

/// A text is refused in one way, or by nothing.
pub fn law_one_refusal()
    ensures { RefusesOnce }
{}

#[cfg(test)]
mod tests;
