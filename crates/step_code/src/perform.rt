//! What an operation does, with its results bound, and jumps.

ghost use Rattle.std.specs.Prelude.{◌≡◌, ℕ, IfOk, [], ◌∷◌};
ghost use Rattle.std.specs.Option.{option_copied, option_map};
ghost use Rattle.operation_model.specs.Doings as doings;
ghost use Rattle.form_model.specs.Codes.{Env};
ghost use Rattle.form_model.specs.Codes as codes;
ghost use Rattle.value_code.specs.Models.{values_of};
ghost use Rattle.run_code.specs.Views.{blocks_of};
ghost use Rattle.table_code.specs.Agreement.{Agrees};
ghost use Rattle.doing_code.specs.Doings.{Does};
ghost use Rattle.frame_code.specs.Frames.{Moved, behind_of, frames_of, goes_to, place_of, target_of};
ghost use Rattle.step_code.specs.Turns.{Stepped, jumps_to, performed, place_behind};

use crate::replies::{allocates, frees, loads, makes, stores};
use crate::turns::{Stop, Turn, turned};
use doing_code::Doing;
use frame_code::{Behind, Moving, Place, go, go_one};
use memory_code::Memory;
use run_code::{Block, Callee, Packing};
use std::alloc::{AllocError, Global};
use value_code::{Value, ValueList};

/// The block of this label.
fn find_block(blocks: &[Block], label: u32) -> Option<&Block>
    ensures { option_map target_of (option_copied result) ≡ codes.find_block label (blocks_of blocks.now) }
{
    for block in blocks {
        if block.label == label {
            return Some(block);
        }
    }
    None
}

/// To a block, with these arguments.
fn jump_into<'a>(
    alloc: Global,
    place: &mut Place<'a>,
    block: &'a Block,
    blocks: &'a [Block],
    xs: &[Value],
) -> Result<Moving, AllocError>
    ensures { IfOk result (λ m. (env : Env) → Agrees place.old.table env → Moved m place.new
        (goes_to (target_of block.now).args (values_of xs.now) env (target_of block.now).ops (blocks_of blocks.now) (frames_of place.old))) }
{
    go(
        alloc,
        place,
        block.args.as_slice(),
        xs,
        block.ops.as_slice(),
        blocks,
    )
}

/// To the block of a label, with these arguments.
fn jump<'a>(
    alloc: Global,
    place: &mut Place<'a>,
    label: u32,
    blocks: &'a [Block],
    xs: ValueList,
) -> Result<Moving, AllocError>
    ensures { IfOk result (λ m. (env : Env) → Agrees place.old.table env → Moved m place.new
        (jumps_to label (values_of xs) (blocks_of blocks.now) env (frames_of place.old))) }
{
    match find_block(blocks, label) {
        Some(block) => Ok(jump_into(alloc, place, block, blocks, xs.as_slice())?),
        None => Ok(Moving::Outside),
    }
}

/// To the block of a label, with no arguments.
pub fn jump_bare<'a>(
    alloc: Global,
    place: &mut Place<'a>,
    label: u32,
    blocks: &'a [Block],
) -> Result<Moving, AllocError>
    ensures { IfOk result (λ m. (env : Env) → Agrees place.old.table env → Moved m place.new
        (jumps_to label [] (blocks_of blocks.now) env (frames_of place.old))) }
{
    match find_block(blocks, label) {
        Some(block) => Ok(jump_into(alloc, place, block, blocks, &[])?),
        None => Ok(Moving::Outside),
    }
}

/// A call, with what waits behind it.
fn calls<'a>(
    place: &mut Place<'a>,
    behind: Behind<'a>,
    callee: &'a Callee,
    xs: ValueList,
    packing: Packing,
) -> Turn<'a>
    ensures turn { result ≡ Turn.Calls callee.entry xs packing behind.entry.results }
    ensures place { (env : Env) → place_of place.new env ≡ place_behind (behind_of behind.entry) env (frames_of place.old) }
    ensures table { place.new.table ≡ place.old.table }
{
    place.ops = behind.rest;
    place.blocks = behind.blocks;
    Turn::Calls(callee, xs, packing, behind.results)
}

/// What an operation does, with what waits behind it.
pub fn perform<'a, M: Memory>(
    alloc: Global,
    place: &mut Place<'a>,
    memory: &mut M,
    behind: Behind<'a>,
    doing: Doing<'a>,
) -> Result<Turn<'a>, AllocError>
    ensures { IfOk result (λ t. (d : doings.Doing) → Does doing.entry d → (s : M.State) → M.Stands memory.old s → (env : Env) → Agrees place.old.table env → Stepped M.Stands t place.new memory.new
        (performed M.ask d (behind_of behind.entry) env (frames_of place.old) s)) }
{
    match doing {
        Doing::Gives(x) => Ok(turned(go_one(
            place,
            behind.results,
            x,
            behind.rest,
            behind.blocks,
        )?)),
        Doing::Loads(w, at) => Ok(loads(place, memory, behind, w, at)?),
        Doing::Stores(w, n, at) => Ok(stores(alloc, place, memory, behind, w, n, at)?),
        Doing::Allocates(alignment, n) => Ok(allocates(place, memory, behind, alignment, n)?),
        Doing::Makes(new) => Ok(makes(alloc, place, memory, behind, new)?),
        Doing::Frees(at) => Ok(frees(alloc, place, memory, behind, at)?),
        Doing::Calls(callee, xs, packing) => Ok(calls(place, behind, callee, xs, packing)),
        Doing::Jumps(label, xs) => Ok(turned(jump(alloc, place, label, behind.blocks, xs)?)),
        Doing::Returns(xs) => Ok(Turn::Returns(xs)),
        Doing::Undefined => Ok(Turn::Stops(Stop::Undefined)),
        Doing::Outside => Ok(Turn::Stops(Stop::Outside)),
    }
}
