//! The law, the contract of a function that does nothing.

ghost use Rattle.fold_laws.specs.Promises.{FoldKeepsMeaning};

/// What a pipeline of arith-expand, convert-arith-to-llvm, convert-cf-to-llvm and reconcile-unrealized-casts, in any order, on the module
/// or on its functions, makes of a verified module keeps the results, the traces and the endless runs, also where a pass fails.
pub fn law_fold()
    ensures { FoldKeepsMeaning }
{}
