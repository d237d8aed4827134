//! Laws, each the contract of a function that does nothing.

ghost use Rattle.llvm_only.specs.Llvm.{LlvmNames};

/// Of the names of the table, those of the llvm operations are just the ones told so.
pub fn law_llvm_names()
    ensures { LlvmNames }
{}
