//! The law of agreement, the contract of a function that does nothing.

ghost use Rattle.sound_model.specs.Agreement.{AgreesWithItself, AgreementsJoin};

/// A module agrees with itself, and what keeps a module that keeps another keeps that one.
pub fn law_agreement()
    ensures itself { AgreesWithItself }
    ensures joined { AgreementsJoin }
{}
