//! To another spot, with values bound there.

ghost use Rattle.std.specs.Prelude.{◌≡◌, ℕ, IfOk, [], ◌∷◌};
ghost use Rattle.form_model.specs.Codes.{Env};
ghost use Rattle.value_code.specs.Models.{value_of, values_of};
ghost use Rattle.run_code.specs.Views.{ops_of, blocks_of};
ghost use Rattle.table_code.specs.Agreement.{Agrees};
ghost use Rattle.frame_code.specs.Frames.{Moved, goes_to, frames_of};

use crate::frame::{Moving, Place};
use run_code::{Block, Operation};
use std::alloc::{AllocError, Global};
use table_code::{bind, put};
use value_code::Value;

/// To these operations, with values under these numbers.
pub fn go<'a>(
    alloc: Global,
    place: &mut Place<'a>,
    ids: &[u32],
    xs: &[Value],
    ops: &'a [Operation],
    blocks: &'a [Block],
) -> Result<Moving, AllocError>
    ensures { IfOk result (λ m. (env : Env) → Agrees place.old.table env → Moved m place.new
        (goes_to ids.now (values_of xs.now) env (ops_of ops.now) (blocks_of blocks.now) (frames_of place.old))) }
{
    if bind(alloc, &mut place.table, ids, xs)? {
        place.ops = ops;
        place.blocks = blocks;
        Ok(Moving::Went)
    } else {
        Ok(Moving::Outside)
    }
}

/// To these operations, with one value under these numbers.
pub fn go_one<'a>(
    place: &mut Place<'a>,
    ids: &[u32],
    x: Value,
    ops: &'a [Operation],
    blocks: &'a [Block],
) -> Result<Moving, AllocError>
    ensures { IfOk result (λ m. (env : Env) → Agrees place.old.table env → Moved m place.new
        (goes_to ids.now (value_of x ∷ []) env (ops_of ops.now) (blocks_of blocks.now) (frames_of place.old))) }
{
    match ids {
        [id] => {
            put(&mut place.table, *id, x)?;
            place.ops = ops;
            place.blocks = blocks;
            Ok(Moving::Went)
        }
        _ => Ok(Moving::Outside),
    }
}
