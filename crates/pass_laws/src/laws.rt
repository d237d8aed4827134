//! Laws of passes, each the contract of a function that does nothing.

ghost use Rattle.pipeline_text.specs.declared.pass.PassName.TheVariants.{ArithExpand, ConvertArithToLlvm, ConvertCfToLlvm};
ghost use Rattle.pass_laws.specs.Promises.{ConversionsKeep, KeepsMeaning, UnusedCastsKeep};

/// By any table of sound straight rows that leave no copy, any functions of a verified module may be converted: the module keeps
/// its results, its traces and its endless runs.
pub fn law_conversion()
    ensures { ConversionsKeep }
{}

/// What arith-expand makes of any functions of a verified module keeps the results, the traces and the endless runs.
pub fn law_expand()
    ensures { KeepsMeaning ArithExpand }
{}

/// So does what convert-arith-to-llvm makes of them.
pub fn law_arith()
    ensures { KeepsMeaning ConvertArithToLlvm }
{}

/// So does what convert-cf-to-llvm makes of them, block arguments with the branches to them.
pub fn law_cf()
    ensures { KeepsMeaning ConvertCfToLlvm }
{}

/// Casts without uses may be left out of any functions of a verified module: it keeps its results, its traces and its endless runs.
pub fn law_unused_casts()
    ensures { UnusedCastsKeep }
{}
