//! The law, as the contract of a function that does nothing.

ghost use Rattle.one_report.specs.Texts.{OneReport};

/// Whichever new numbers were taken: whether all operations of the lowered module are llvm ones, and what is printed on each run of it, is
/// the same.
pub fn law_one_report()
    ensures { OneReport }
{}
