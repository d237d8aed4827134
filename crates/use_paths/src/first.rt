//! The first operation that uses a value which isn't defined there.

ghost use Rattle.std.specs.Prelude.{◌≡◌, IfOk, true};
ghost use Rattle.plain_tree.specs.Ops.{plain_op};
ghost use Rattle.first_places.specs.Numbering.{is_numbered_once};
ghost use Rattle.rule_model.specs.Sites.{sites};
ghost use Rattle.first_places.specs.First.{FirstAt};
ghost use Rattle.use_paths.specs.Undefined.{UsesUndefined};

use crate::walk::first_missed;
use std::alloc::Global;
use tree_model::{NoMemory, OpTree};

/// The number of the first operation of a function, in the order of the text, with a use that isn't defined there: where a path through
/// the region that defines the value reaches the use without it, or where no region around defines it. None where each use is defined.
/// This is MLIR's dominance of uses; a use that no path reaches is fine.
///
/// A number of a value that is defined behind the use's own place costs nothing; else each block that defines such a value is searched
/// for once.
pub fn first_undefined(alloc: Global, function: &OpTree) -> Result<Option<usize>, NoMemory>
    ensures { IfOk result (λ place. is_numbered_once (plain_op function.now) ≡ true → FirstAt UsesUndefined (sites (plain_op function.now)) place) }
{
    let place = first_missed(alloc, function)?;
    Ok(place)
}
