//! The law of plain codes, the contract of a function that does nothing.

ghost use Rattle.code_laws.specs.PlainCodes.{SameCodes};

/// The functions of a module are those that its plain form has.
pub fn law_codes()
    ensures { SameCodes }
{}
