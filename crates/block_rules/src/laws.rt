//! Laws, each the contract of a function that does nothing.

ghost use Rattle.block_rules.specs.Promises.{
  BlocksKeepDefined,
  BlocksKeepFormed,
  BlocksKeepOwn,
  BrConverted,
  CondBrConverted,
};

/// What convert-cf-to-llvm makes of a branch: casts of its operands in front, and the branch of llvm in converted types to the
/// same blocks.
pub fn law_branches()
    ensures br { BrConverted }
    ensures cond_br { CondBrConverted }
{}

/// Where the arguments of blocks get their converted types, each use is still defined, no value
/// uses itself, and a formed function stays formed.
pub fn law_block_arguments()
    ensures defined { BlocksKeepDefined }
    ensures own { BlocksKeepOwn }
    ensures formed { BlocksKeepFormed }
{}
