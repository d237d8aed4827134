//! The target of each pass.

ghost use Rattle.std.specs.Prelude.{◌≡◌, IfOk};
ghost use Rattle.conversion_target.specs.Targets.{target_of};
ghost use Rattle.pass_targets.specs.Known.{pass_target};

use crate::build::{full, nothing, partial};
use crate::names;
use conversion_target::Target;
use pipeline_text::PassName;
use std::alloc::Global;
use tree_model::NoMemory;

/// What a pass wants of operations. `reconcile-unrealized-casts` converts nothing, and knows no name.
pub fn target_of_pass(alloc: Global, pass: PassName) -> Result<Target, NoMemory>
    ensures { IfOk result (λ t. target_of t ≡ pass_target pass) }
{
    match pass {
        PassName::ConvertScfToCf => partial(alloc, names::of_scf(), &[]),
        PassName::ArithExpand => partial(alloc, names::expanded(), &[]),
        PassName::ConvertArithToLlvm => partial(alloc, names::of_arith(), &[]),
        PassName::ConvertCfToLlvm => partial(alloc, names::of_cf(), names::branches()),
        PassName::ConvertFuncToLlvm => partial(alloc, names::of_func(), &[]),
        PassName::FinalizeMemrefToLlvm => partial(alloc, names::of_memref(), &[]),
        PassName::ReconcileUnrealizedCasts => Ok(nothing(alloc)),
        PassName::FullConvertToLlvm => full(alloc),
    }
}
