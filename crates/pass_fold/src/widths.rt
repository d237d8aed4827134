//! The width of a pipeline.

ghost use Rattle.std.specs.Prelude.{◌≡◌};
ghost use Rattle.pipeline_text.specs.Passes.{has_width};
ghost use Rattle.pattern_model.specs.Fold.{stage_width, stages_width, uses_width, width};

use pipeline_text::{PassName, PassUse, Stage};

/// Whether a pass has the option `index-bitwidth`.
fn is_wide(pass: PassName) -> bool
    ensures { result ≡ has_width pass }
{
    match pass {
        PassName::ConvertArithToLlvm
        | PassName::ConvertCfToLlvm
        | PassName::ConvertFuncToLlvm
        | PassName::FinalizeMemrefToLlvm
        | PassName::FullConvertToLlvm => true,
        PassName::ConvertScfToCf | PassName::ArithExpand | PassName::ReconcileUnrealizedCasts =>
            false,
    }
}

fn width_of_uses(uses: &[PassUse]) -> Option<u32>
    ensures { result ≡ uses_width uses.now }
{
    'each: for used in uses {
        if is_wide(used.pass) {
            return Some(used.bits);
        }
    }
    None
}

fn width_of_stage(stage: &Stage) -> Option<u32>
    ensures { result ≡ stage_width stage.now }
{
    match stage {
        Stage::Whole(used) => {
            if is_wide(used.pass) {
                Some(used.bits)
            } else {
                None
            }
        }
        Stage::Each(_, uses) => width_of_uses(uses.as_slice()),
    }
}

/// How many bits an index has in a pipeline: as its first pass says that has the option, 64 where none does.
pub fn width_of(stages: &[Stage]) -> u32
    ensures { result ≡ width stages.now }
{
    'each: for stage in stages {
        if let Some(bits) = width_of_stage(stage) {
            return bits;
        }
    }
    64
}
