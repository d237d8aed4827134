//! What stands behind a word in its region, and what a word adds to it.

ghost use Rattle.std.specs.Prelude.{◌≡◌, ◌≤◌, ℕ, List, IfOk, length, reverse};
ghost use Rattle.event_trees.specs.Levels as levels;
ghost use Rattle.event_trees.specs.Wording.{wording_of};
ghost use Rattle.module_trees.specs.Views.{PartsWithin, level_of, parts_of, role_of};
ghost use Rattle.term_table.specs.declared.node.Node.{Node};
ghost use Rattle.term_table.specs.Terms.{term_at};

use crate::operations::op_named;
use sqlite_items::Items;
use std::alloc::{AllocError, Global};
use term_table::Terms;
use term_trees::type_at;
use text_events::Source;
use text_grammar::Place;
use tree_model::{BlockTree, OpTree, RegionTree, TypeTree};

/// A word at its place, with its name, the number of the value or label that it defines or uses, and the number of the term that begins there.
#[derive(Clone, Copy, Drop)]
pub struct Role {
    pub place: Place,
    pub name: u32,
    pub number: u32,
    pub term: u32,
}

/// The parts of an operation that stand behind a word in it, the last first. Dictionaries and the function type are numbers of terms.
#[derive(Drop)]
pub struct Parts {
    pub operands: Vec<u32>,
    pub successors: Vec<u32>,
    pub props: u32,
    pub regions: Vec<RegionTree>,
    pub attrs: u32,
    pub signature: u32,
}

/// What stands behind a word in its region, the last first.
#[derive(Drop)]
pub struct Level {
    pub parts: Parts,
    pub args: Vec<(u32, TypeTree)>,
    pub ops: Vec<OpTree>,
    pub blocks: Vec<BlockTree>,
}

/// No parts.
fn no_parts(alloc: Global) -> Parts
    ensures is { (nodes : List Node) → parts_of nodes result ≡ levels.no_parts }
    ensures within { (last : ℕ) → PartsWithin last result }
{
    Parts {
        operands: Vec::new(alloc),
        successors: Vec::new(alloc),
        props: 0,
        regions: Vec::new(alloc),
        attrs: 0,
        signature: 0,
    }
}

/// Nothing behind.
pub fn empty(alloc: Global) -> Level
    ensures is { (nodes : List Node) → level_of nodes result ≡ levels.empty }
    ensures within { (last : ℕ) → PartsWithin last result.parts }
{
    Level {
        parts: no_parts(alloc),
        args: Vec::new(alloc),
        ops: Vec::new(alloc),
        blocks: Vec::new(alloc),
    }
}

/// With a part before those behind it.
fn with_part(terms: &Terms, parts: Parts, role: Role) -> Result<Parts, AllocError>
    requires term { role.term ≤ length terms.now.nodes.keys }
    requires within { PartsWithin (length terms.now.nodes.keys) parts }
    ensures is { IfOk result (λ p. parts_of terms.now.nodes.keys p ≡ levels.with_part role.place role.number (term_at terms.now.nodes.keys role.term) (parts_of terms.now.nodes.keys parts)) }
    ensures within { IfOk result (PartsWithin (length terms.now.nodes.keys)) }
{
    let mut parts = parts;
    match role.place {
        Place::UseName => parts.operands.push(role.number)?,
        Place::SuccessorName => parts.successors.push(role.number)?,
        Place::PropsOpen => parts.props = role.term,
        Place::DictOpen => parts.attrs = role.term,
        Place::SignatureOpen => parts.signature = role.term,
        _ => {}
    }
    Ok(parts)
}

/// With an argument before what stands behind it.
fn with_arg(alloc: Global, terms: &Terms, level: Level, role: Role) -> Result<Level, AllocError>
    requires { role.term ≤ length terms.now.nodes.keys }
    ensures is { IfOk result (λ l. level_of terms.now.nodes.keys l ≡ levels.with_arg role.number (term_at terms.now.nodes.keys role.term) (level_of terms.now.nodes.keys level)) }
    ensures parts { IfOk result (λ l. l.parts ≡ level.parts) }
{
    let mut args = level.args;
    args.push((role.number, type_at(alloc, terms, role.term)?))?;
    Ok(Level {
        parts: level.parts,
        args,
        ops: level.ops,
        blocks: level.blocks,
    })
}

/// The list, turned.
pub fn turned<T: Drop>(items: Vec<T>) -> Items<T>
    ensures { result ≡ reverse items.items }
{
    let mut all = items;
    all.reverse();
    Items::from_vec(all)
}

/// With a block that begins here.
fn with_block(alloc: Global, level: Level, label: u32) -> Result<Level, AllocError>
    ensures is { (nodes : List Node) → IfOk result (λ l. level_of nodes l ≡ levels.with_block label (level_of nodes level)) }
    ensures parts { IfOk result (λ l. l.parts ≡ level.parts) }
{
    let block = BlockTree {
        label,
        args: turned(level.args),
        ops: turned(level.ops),
    };
    let mut blocks = level.blocks;
    blocks.push(block)?;
    Ok(Level {
        parts: level.parts,
        args: Vec::new(alloc),
        ops: Vec::new(alloc),
        blocks,
    })
}

/// With an operation before those behind it.
fn with_op(
    alloc: Global,
    source: &Source<'_>,
    terms: &Terms,
    level: Level,
    role: Role,
) -> Result<Level, AllocError>
    requires { PartsWithin (length terms.now.nodes.keys) level.parts }
    ensures is { IfOk result (λ l. level_of terms.now.nodes.keys l ≡ levels.with_op (wording_of source.now.text.now source.now.words.now) role.name role.number (level_of terms.now.nodes.keys level)) }
    ensures within { IfOk result (λ l. PartsWithin (length terms.now.nodes.keys) l.parts) }
{
    let op = op_named(alloc, source, terms, role.name, role.number, level.parts)?;
    let mut ops = level.ops;
    ops.push(op)?;
    Ok(Level {
        parts: no_parts(alloc),
        args: level.args,
        ops,
        blocks: level.blocks,
    })
}

/// With a word before what stands behind it in its region.
pub fn in_level(
    alloc: Global,
    source: &Source<'_>,
    terms: &Terms,
    level: Level,
    role: Role,
) -> Result<Level, AllocError>
    requires term { role.term ≤ length terms.now.nodes.keys }
    requires within { PartsWithin (length terms.now.nodes.keys) level.parts }
    ensures is { IfOk result (λ l. level_of terms.now.nodes.keys l ≡ levels.in_level (wording_of source.now.text.now source.now.words.now) (role_of terms.now.nodes.keys role) (level_of terms.now.nodes.keys level)) }
    ensures within { IfOk result (λ l. PartsWithin (length terms.now.nodes.keys) l.parts) }
{
    match role.place {
        Place::OpName => with_op(alloc, source, terms, level, role),
        Place::ArgName => with_arg(alloc, terms, level, role),
        Place::BlockLabel => with_block(alloc, level, role.number),
        _ => Ok(Level {
            parts: with_part(terms, level.parts, role)?,
            args: level.args,
            ops: level.ops,
            blocks: level.blocks,
        }),
    }
}

/// The blocks of a region: operations before the first label are a block.
fn region_blocks(
    alloc: Global,
    label: u32,
    ops: Vec<OpTree>,
    blocks: Vec<BlockTree>,
) -> Result<Vec<BlockTree>, AllocError>
    ensures { IfOk result (λ bs. reverse bs.items ≡ levels.region_blocks label (reverse ops.items) (reverse blocks.items)) }
{
    let mut all = blocks;
    if ops.is_empty() {
        return Ok(all);
    }
    let block = BlockTree {
        label,
        args: Items::new(alloc),
        ops: turned(ops),
    };
    all.push(block)?;
    Ok(all)
}

/// The region that begins here.
fn region_opened(alloc: Global, label: u32, level: Level) -> Result<RegionTree, AllocError>
    ensures { (nodes : List Node) → IfOk result (λ r. r ≡ levels.region_opened label (level_of nodes level)) }
{
    let blocks = region_blocks(alloc, label, level.ops, level.blocks)?;
    Ok(RegionTree {
        blocks: turned(blocks),
    })
}

/// With a region before what stands behind it in its operation.
pub fn with_region(
    alloc: Global,
    label: u32,
    inner: Level,
    outer: Level,
) -> Result<Level, AllocError>
    ensures is { (nodes : List Node) → IfOk result (λ l. level_of nodes l ≡ levels.with_region (levels.region_opened label (level_of nodes inner)) (level_of nodes outer)) }
    ensures within { (last : ℕ) → PartsWithin last outer.parts → IfOk result (λ l. PartsWithin last l.parts) }
{
    let region = region_opened(alloc, label, inner)?;
    let mut outer = outer;
    outer.parts.regions.push(region)?;
    Ok(outer)
}
