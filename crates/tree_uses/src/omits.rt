//! Tests of operations.

use tree_model::OpTree;

/// Which operations are left out.
pub trait Omits {
    ghost use Rattle.std.specs.Prelude.{◌≡◌, Bool};
    ghost use Rattle.plain_tree.specs.Ops.{Op, plain_op};

    // Whether an operation is left out.
    ghost test: { Self → Op → Bool };

    /// Whether the operation is left out.
    fn omits(&self, op: &OpTree) -> bool
        ensures { result ≡ test self.now (plain_op op.now) };
}
