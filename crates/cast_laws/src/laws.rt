//! Laws of reconciliation, each the contract of a function that does nothing.

ghost use Rattle.pipeline_text.specs.declared.pass.PassName.TheVariants.{ReconcileUnrealizedCasts};
ghost use Rattle.pass_laws.specs.Promises.{KeepsMeaning};
ghost use Rattle.cast_laws.specs.Promises.{PairsAreUndone, UndoneCastsKeep};

/// What reconcile-unrealized-casts makes of any functions of a verified module keeps the results, the traces and the endless runs.
pub fn law_casts()
    ensures { KeepsMeaning ReconcileUnrealizedCasts }
{}

/// Casts that undo others may be left out of the functions of a verified module, in any order, their uses given to what
/// the others cast: it keeps its results, its traces and its endless runs. Reconciliation begins by leaving out such casts.
pub fn law_undone_casts()
    ensures keeps { UndoneCastsKeep }
    ensures pairs { PairsAreUndone }
{}
