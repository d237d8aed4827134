//! Laws of conversion, each the contract of a function that does nothing.

ghost use Rattle.conversion_model.specs.Counts.{ConversionOnce, WrittenOnce};
ghost use Rattle.conversion_model.specs.Promises.{ConvertedIsOwn, NoCasts, NoPairBehind, NoPairLeft, NoUnusedCast, OwnTypes};

/// The own types are those that the table maps to themselves, at each width, and each converted type is own.
pub fn law_own_types()
    ensures own { OwnTypes }
    ensures converted { ConvertedIsOwn }
{}

/// Where no type changes a template has no casts round it.
pub fn law_no_casts()
    ensures { NoCasts }
{}

/// Reconciliation comes to its end: no cast is left that another one undoes, and then none without uses, and still no cast
/// that another one undoes.
pub fn law_reconciled()
    ensures pairs { NoPairLeft }
    ensures unused { NoUnusedCast }
    ensures behind { NoPairBehind }
{}

/// A template that is written down defines each result at most once, and each new number at most once.
pub fn law_written_once()
    ensures { WrittenOnce }
{}

/// A conversion defines each number at most once where the function does, its labels stand once each, the new numbers are
/// fresh, and each row that cuts keeps to its results, its blocks' arguments and its new values, each at most once.
pub fn law_defined_once()
    ensures { ConversionOnce }
{}
