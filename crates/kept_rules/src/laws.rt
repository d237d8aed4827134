//! Laws, each the contract of a function that does nothing.

ghost use Rattle.kept_rules.specs.Promises.{
  ArithKeepsVerified,
  CastsKeepVerified,
  CfKeepsVerified,
  ExpandKeepsVerified,
  FoldKeepsVerified,
};

/// A verified module with any of its functions replaced by what arith-expand, convert-arith-to-llvm,
/// convert-cf-to-llvm or reconcile-unrealized-casts makes of it, with fresh numbers, is verified.
pub fn law_verified()
    ensures expand { ExpandKeepsVerified }
    ensures arith { ArithKeepsVerified }
    ensures cf { CfKeepsVerified }
    ensures casts { CastsKeepVerified }
{}

/// What a pipeline of these passes makes of a verified module is verified, also where a pass fails.
pub fn law_fold_verified()
    ensures { FoldKeepsVerified }
{}
