//! Nodes put behind those that are there.

ghost use Rattle.std.specs.Prelude.{◌≡◌, ℕ, [], ◌∷◌, ◌++◌, length, IfOk, OnOk, OnErr, MatchResult};
ghost use Rattle.intern_api.specs.declared.fault.InternFault.TheVariants.{NoMemory as want};
ghost use Rattle.flat_model.specs.Flat.{AllBelow, IsOpWithin, IsBlockWithin};
ghost use Rattle.flat_model.specs.Growth.{Built};
ghost use Rattle.ir_arena.specs.Arena.{block_node};
ghost use Rattle.ir_arena.specs.Building.{nodes_of};

use crate::cells::{BlockCell, RegionCell};
use crate::fresh::Build;
use flat_model::OpNode;
use intern_api::InternFault;
use key_model::Handle;
use std::alloc::AllocError;
use tree_model::NoMemory;

/// The same answer, where want of memory is one fault of several.
pub fn or_fault<T>(answer: Result<T, NoMemory>) -> Result<T, InternFault>
    ensures { MatchResult answer (λ x. result ≡ Ok x) (λ e. result ≡ Err want) }
{
    match answer {
        Ok(x) => Ok(x),
        Err(_) => Err(InternFault::NoMemory),
    }
}

/// The number of the next item behind so many.
pub fn next(count: usize) -> Result<u32, NoMemory>
    ensures { IfOk result (λ number. number ≡ count) }
{
    match u32::try_from(count) {
        Ok(number) => Ok(number),
        Err(_) => Err(AllocError),
    }
}

/// One number more.
pub fn pushed(numbers: &mut Vec<u32>, number: u32) -> Result<(), NoMemory>
    ensures { OnOk result (numbers.new.items ≡ numbers.old.items ++ number ∷ []) }
{
    numbers.push(number)?;
    Ok(())
}

/// One operation more.
#[tactic(auto, using(crate::proofs::BuildLaws::push_laws))]
pub fn push_op(b: &mut Build, node: OpNode) -> Result<u32, NoMemory>
    ensures number { IfOk result (λ op. op ≡ length b.old.ops.items) }
    ensures ok { OnOk result (nodes_of b.new ≡ record (nodes_of b.old) { ops = b.old.ops.items ++ node ∷ [] }) }
    ensures err { OnErr result (nodes_of b.new ≡ nodes_of b.old) }
    ensures built { (values blocks : ℕ) → IsOpWithin values blocks (nodes_of b.old) node → Built values blocks (nodes_of b.old) (nodes_of b.new) }
{
    let op = next(b.ops.len())?;
    b.ops.push(node)?;
    Ok(op)
}

/// One block more.
#[tactic(auto, using(crate::proofs::BuildLaws::push_laws))]
pub fn push_block(b: &mut Build, cell: BlockCell) -> Result<u32, NoMemory>
    ensures number { IfOk result (λ block. block ≡ length b.old.blocks.items) }
    ensures ok { OnOk result (nodes_of b.new ≡ record (nodes_of b.old) { blocks = (nodes_of b.old).blocks ++ block_node cell ∷ [] }) }
    ensures err { OnErr result (nodes_of b.new ≡ nodes_of b.old) }
    ensures built { (values blocks : ℕ) → IsBlockWithin (nodes_of b.old) (block_node cell) → Built values blocks (nodes_of b.old) (nodes_of b.new) }
{
    let block = next(b.blocks.len())?;
    b.blocks.push(cell)?;
    Ok(block)
}

/// One region more.
#[tactic(auto, using(crate::proofs::BuildLaws::push_laws))]
pub fn push_region(b: &mut Build, held: Vec<u32>) -> Result<u32, NoMemory>
    ensures number { IfOk result (λ region. region ≡ length b.old.regions.items) }
    ensures ok { OnOk result (nodes_of b.new ≡ record (nodes_of b.old) { regions = (nodes_of b.old).regions ++ held.items ∷ [] }) }
    ensures err { OnErr result (nodes_of b.new ≡ nodes_of b.old) }
    ensures built { (values blocks : ℕ) → AllBelow (length (nodes_of b.old).blocks) held.items → Built values blocks (nodes_of b.old) (nodes_of b.new) }
{
    let region = next(b.regions.len())?;
    b.regions.push(RegionCell { blocks: held })?;
    Ok(region)
}

/// One value more, of a type.
#[tactic(auto, using(crate::proofs::BuildLaws::push_laws))]
pub fn push_value(b: &mut Build, ty: Handle) -> Result<u32, NoMemory>
    ensures number { IfOk result (λ value. value ≡ length b.old.types.items) }
    ensures ok { OnOk result (nodes_of b.new ≡ record (nodes_of b.old) { types = b.old.types.items ++ ty ∷ [] }) }
    ensures err { OnErr result (nodes_of b.new ≡ nodes_of b.old) }
    ensures built { (values blocks : ℕ) → Built values blocks (nodes_of b.old) (nodes_of b.new) }
{
    let value = next(b.types.len())?;
    b.types.push(ty)?;
    Ok(value)
}
