//! Laws of rows, each the contract of a function that does nothing.

ghost use Rattle.pattern_model.specs.ArithRows.{arith_set};
ghost use Rattle.pattern_model.specs.CfRows.{cf_set};
ghost use Rattle.pattern_model.specs.ExpandRows.{expand_set};
ghost use Rattle.row_laws.specs.Promises.{SetSound};

/// The 5 rows within arith are sound, where an index has 32 bits and where it has 64.
pub fn law_expand_rows()
    ensures { SetSound expand_set }
{}

/// The 25 rows from arith to llvm are sound.
pub fn law_arith_rows()
    ensures { SetSound arith_set }
{}

/// The 4 rows from branches to those of llvm are sound.
pub fn law_cf_rows()
    ensures { SetSound cf_set }
{}
