//! The law, as the contract of a function that does nothing.

ghost use Rattle.one_lowering.specs.Lowerings.{OneLowering};

/// Whichever new numbers were taken: the lowered module prints as one text, its lines are one text, and it failed or not.
pub fn law_one_lowering()
    ensures { OneLowering }
{}
