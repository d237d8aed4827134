//! What a pipeline asks of its passes.

use pipeline_text::PassName;
use std::alloc::Global;
use tree_model::{Name, NoMemory, OpTree};

/// An operation for which a pass has no way: its number in the order of the text, 0 for the function itself, and its name.
#[derive(Debug, Drop)]
pub struct IllegalOp {
    pub number: u32,
    pub name: Name,
}

/// Passes on one function.
pub trait Passes {
    ghost use Rattle.std.specs.Prelude.{◌≡◌, IfOk};
    ghost use Rattle.plain_tree.specs.Ops.{plain_op};
    ghost use Rattle.pattern_model.specs.PassTable.{patterns_with};
    ghost use Rattle.pass_fold.specs.Makes.{PassMakes, made};

    /// What a pass makes of a function where an index has so many bits, or the first operation for which it has no way.
    fn run(
        &self,
        alloc: Global,
        pass: PassName,
        bits: u32,
        f: &OpTree,
    ) -> Result<Result<OpTree, IllegalOp>, NoMemory>
        ensures { IfOk result (λ r. PassMakes pass bits (plain_op f.now) (made r)) };

    /// How many patterns of a pass have that root.
    fn patterns(&self, pass: PassName, name: &Name) -> usize
        ensures { result ≡ patterns_with pass name.now };
}
