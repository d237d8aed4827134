//! What surrounds an operation, from a tree.
#![tactic(auto, using(crate::proofs::Heads::layers))]

ghost use Rattle.std.specs.Prelude.{◌≡◌, IfOk, map};
ghost use Rattle.std.specs.Option.{option_copied};
ghost use Rattle.plain_tree.specs.Ops.{blocks_in, ops_in, plain_op};
ghost use Rattle.rule_model.specs.Facts as model;
ghost use Rattle.value_types.specs.Trees.{plain_block};
ghost use Rattle.rule_facts.specs.Views.{head_view, heads_view, regions_view, target_view, targets_view};
ghost use Rattle.function_tests.specs.Heads.{head_at, heads_at, heads_in, place_of};

use rule_facts::{Head, Target};
use sqlite_items::at;
use std::alloc::Global;
use tree_model::{BlockTree, Name, NoMemory, OpTree, RegionTree};
use value_types::borrowed;

/// The name of the last of these operations.
fn last_name(ops: &[OpTree]) -> Option<&Name>
    ensures { option_copied result ≡ model.last_in (ops_in (map plain_op ops.now)) }
{
    if ops.is_empty() {
        return None;
    }
    match at(ops, ops.len() - 1) {
        Some(op) => Some(&op.name),
        None => None,
    }
}

/// The head of a block.
pub fn head_of<'a>(alloc: Global, block: &'a BlockTree) -> Result<Head<'a>, NoMemory>
    ensures { IfOk result (λ h. head_view h ≡ head_at (plain_block block.now)) }
{
    let args = borrowed(alloc, block.args.as_slice())?;
    Ok(Head {
        args,
        last: last_name(block.ops.as_slice()),
    })
}

/// The heads of blocks in order.
pub fn heads_of<'a>(alloc: Global, blocks: &'a [BlockTree]) -> Result<Vec<Head<'a>>, NoMemory>
    ensures { IfOk result (λ hs. heads_view hs.items ≡ heads_in blocks.now) }
{
    let mut heads = Vec::with_capacity(alloc, blocks.len())?;
    for block in blocks {
        heads.push(head_of(alloc, block)?)?;
    }
    Ok(heads)
}

/// The heads of the blocks of each region.
pub fn regions_of<'a>(
    alloc: Global,
    regions: &'a [RegionTree],
) -> Result<Vec<Vec<Head<'a>>>, NoMemory>
    ensures { IfOk result (λ rs. regions_view rs.items ≡ map heads_at regions.now) }
{
    let mut all = Vec::with_capacity(alloc, regions.len())?;
    for region in regions {
        all.push(heads_of(alloc, region.blocks.as_slice())?)?;
    }
    Ok(all)
}

/// The place of the first block with this label.
fn place_of(label: u32, blocks: &[BlockTree]) -> Option<usize>
    ensures { result ≡ place_of label blocks.now }
{
    for (place, block) in blocks.iter().enumerate() {
        if block.label == label {
            return Some(place);
        }
    }
    None
}

/// The block with this label among blocks with these heads.
pub fn target_of<'a>(blocks: &[BlockTree], heads: &'a [Head<'a>], label: u32) -> Target<'a>
    requires { heads_view heads.now ≡ heads_in blocks.now }
    ensures { target_view result ≡ model.target (blocks_in (map plain_block blocks.now)) label }
{
    match place_of(label, blocks) {
        Some(place) => Target {
            block: at(heads, place),
            first: place == 0,
        },
        None => Target {
            block: None,
            first: false,
        },
    }
}

/// The blocks with these labels.
pub fn targets_of<'a>(
    alloc: Global,
    blocks: &[BlockTree],
    heads: &'a [Head<'a>],
    labels: &[u32],
) -> Result<Vec<Target<'a>>, NoMemory>
    requires { heads_view heads.now ≡ heads_in blocks.now }
    ensures { IfOk result (λ ts. targets_view ts.items ≡ map (model.target (blocks_in (map plain_block blocks.now))) labels.now) }
{
    let mut targets = Vec::with_capacity(alloc, labels.len())?;
    for label in labels {
        targets.push(target_of(blocks, heads, *label))?;
    }
    Ok(targets)
}
