//! The rules of the verifier.

/// The rules, in the order in which they are looked at.
#[derive(Clone, Copy, PartialEq, Eq, Debug)]
pub enum Rule {
    Operands,
    Results,
    Regions,
    Attribute,
    Successors,
    Terminator,
    Signature,
    Symbol,
    Reserved,
    ValueType,
    Defined,
    OwnUse,
}
