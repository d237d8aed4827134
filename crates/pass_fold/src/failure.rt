//! Failures.

ghost use Rattle.std.specs.Prelude.{◌≡◌, IfOk};
ghost use Rattle.pattern_model.specs.Fold.{failure as failure_of};
ghost use Rattle.pass_fold.specs.Makes.{illegal};
ghost use Rattle.pass_fold.specs.Views.{failure_view};

use crate::passes::{IllegalOp, Passes};
use pipeline_text::PassName;
use sqlite_items::Items;
use std::alloc::AllocError;
use tree_model::{Name, NoMemory};

/// A pass that failed on a function.
#[derive(Debug, Drop)]
pub struct FailureTree {
    /// The position of the function in the module, and that of the pass in its stage.
    pub function: u32,
    pub position: u32,
    pub pass: PassName,
    /// The number of the operation in the order of the text, and its name.
    pub number: u32,
    pub name: Name,
    /// How many patterns of the pass have the operation's name as their root.
    pub patterns: u32,
}

/// Failures in order.
pub type FailureList = Items<FailureTree>;

/// The failure of a pass at an operation.
pub fn failure<P: Passes>(
    passes: &P,
    function: u32,
    position: u32,
    pass: PassName,
    at: IllegalOp,
) -> Result<FailureTree, NoMemory>
    ensures { IfOk result (λ e. failure_view e ≡ failure_of function position pass (illegal at)) }
{
    match u32::try_from(passes.patterns(pass, &at.name)) {
        Ok(patterns) => Ok(FailureTree {
            function,
            position,
            pass,
            number: at.number,
            name: at.name,
            patterns,
        }),
        Err(_) => Err(AllocError),
    }
}
