//! The place at which a function begins.

ghost use Rattle.std.specs.Prelude.{◌≡◌, IfOk};
ghost use Rattle.machine_model.specs.Machine as model;
ghost use Rattle.value_code.specs.Models.{values_of};
ghost use Rattle.run_code.specs.Views.{blocks_of, function_of};
ghost use Rattle.machine_code.specs.Machines.{Begun, entered};

use call_code::gathered;
use frame_code::Place;
use run_code::{Block, Function};
use std::alloc::{AllocError, Global};
use std::collections::VecDeque;
use table_code::{bind, no_values};
use value_code::Value;

/// The place at the first block, with these arguments. None where there is no block, or where they are not as many.
fn entered_at<'a>(
    alloc: Global,
    blocks: &'a [Block],
    args: &[Value],
) -> Result<Option<Place<'a>>, AllocError>
    ensures { IfOk result (λ o. Begun o (entered (blocks_of blocks.now) (values_of args.now))) }
{
    let Some(first) = blocks.first() else {
        return Ok(None);
    };
    let mut table = no_values(alloc);
    if !bind(alloc, &mut table, first.args.as_slice(), args)? {
        return Ok(None);
    }
    Ok(Some(Place {
        ops: first.ops.as_slice(),
        blocks,
        table,
        frames: VecDeque::new(alloc),
    }))
}

/// The place at which a call of a function begins. None where that is outside of what has a meaning.
pub fn begin<'a>(
    alloc: Global,
    f: &'a Function,
    xs: &[Value],
) -> Result<Option<Place<'a>>, AllocError>
    ensures { IfOk result (λ o. Begun o (model.begins (function_of f.now) (values_of xs.now))) }
{
    match gathered(alloc, f.shapes.as_slice(), xs)? {
        Some(args) => Ok(entered_at(alloc, f.blocks.as_slice(), args.as_slice())?),
        None => Ok(None),
    }
}
