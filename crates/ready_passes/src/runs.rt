//! How a pass converts.

ghost use Rattle.std.specs.Prelude.{◌≡◌, is_some};
ghost use Rattle.pattern_model.specs.PassTable.{pass_of};
ghost use Rattle.unit_views.specs.Modes.{mode_of};
ghost use Rattle.ready_passes.specs.Runs.{pass_blocks, pass_mode};

use pipeline_text::PassName;
use unit_views::Mode;

/// The mode of a pass.
pub fn mode_of_pass(pass: PassName) -> Mode
    ensures { mode_of result ≡ pass_mode pass }
{
    match pass {
        PassName::FullConvertToLlvm => Mode::Full,
        PassName::ConvertScfToCf
        | PassName::ArithExpand
        | PassName::ConvertArithToLlvm
        | PassName::ConvertCfToLlvm
        | PassName::ConvertFuncToLlvm
        | PassName::FinalizeMemrefToLlvm
        | PassName::ReconcileUnrealizedCasts => Mode::Partial,
    }
}

/// Whether a pass converts the arguments of blocks.
pub fn converts_blocks(pass: PassName) -> bool
    ensures { result ≡ pass_blocks pass }
{
    match pass {
        PassName::ConvertCfToLlvm | PassName::FullConvertToLlvm => true,
        PassName::ConvertScfToCf
        | PassName::ArithExpand
        | PassName::ConvertArithToLlvm
        | PassName::ConvertFuncToLlvm
        | PassName::FinalizeMemrefToLlvm
        | PassName::ReconcileUnrealizedCasts => false,
    }
}

/// Whether a pass converts: one of them reconciles, and converts nothing.
pub fn is_conversion(pass: PassName) -> bool
    ensures { result ≡ is_some (pass_of pass) }
{
    match pass {
        PassName::ReconcileUnrealizedCasts => false,
        PassName::ConvertScfToCf
        | PassName::ArithExpand
        | PassName::ConvertArithToLlvm
        | PassName::ConvertCfToLlvm
        | PassName::ConvertFuncToLlvm
        | PassName::FinalizeMemrefToLlvm
        | PassName::FullConvertToLlvm => true,
    }
}
