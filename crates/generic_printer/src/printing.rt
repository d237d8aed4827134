//! The text of a module: its functions, their operations and the blocks in them.

ghost use Rattle.std.specs.Prelude.{◌≡◌, ◌++◌, IfOk, OnOk, OnErr, map, flat_map, codes};
ghost use Rattle.tree_model.specs.declared.op_tree.OpTree.{out-OpTree};
ghost use Rattle.text_model.specs.PrintedOps.{head_text, tail_text, op_text, region_text, block_parts, regions_text, blocks_text, first_block, block_text, shows_label, has_none};
ghost use Rattle.text_model.specs.Printed.{func_text, funcs_text, module_text};
ghost use Rattle.generic_printer.specs.NamesIn.{names_in};

use crate::naming::table_of;
use crate::parts::{
    put_attrs, put_label_line, put_operands, put_props, put_results_lead, put_signature,
    put_successors,
};
use crate::table::{Table, next};
use std::alloc::Global;
use tree_model::{BlockTree, Bytes, FuncTree, ModuleTree, NoMemory, OpTree, RegionTree};
use tree_text::put_string;

/// The bytes that a module prints as. Each function takes two passes: one that names its values and
/// blocks in a table, and one that writes. A look-up takes the same time however long the function.
pub fn print_tree(alloc: Global, tree: &ModuleTree) -> Result<Vec<u8>, NoMemory>
    ensures { IfOk result (λ v. v.items ≡ module_text tree.now) }
{
    let mut out = Bytes::new(alloc);
    out.put(b"\"builtin.module\"()")?;
    put_props(&mut out, tree.props.as_slice())?;
    out.put(b" ({\n")?;
    put_funcs(alloc, &mut out, tree.funcs.as_slice())?;
    out.put(b"})")?;
    put_attrs(&mut out, tree.attrs.as_slice())?;
    out.put(b" : () -> ()\n")?;
    Ok(out.into_vec())
}

fn put_funcs(alloc: Global, out: &mut Bytes, funcs: &[FuncTree]) -> Result<(), NoMemory>
    ensures { OnOk result (out.new ≡ out.old ++ funcs_text funcs.now) }
{
    if funcs.is_empty() {
        return out.put(b"^bb0:\n");
    }
    for f in funcs {
        put_lines(alloc, out, f)?;
    }
    Ok(())
}

fn put_lines(alloc: Global, out: &mut Bytes, f: &FuncTree) -> Result<(), NoMemory>
    ensures { OnOk result (out.new ≡ out.old ++ func_text f.now) }
{
    let table = table_of(alloc, &f.op)?;
    put_op(alloc, out, &table, b"  ", &f.op)
}

/// Appends a function as it stands in a module.
pub fn put_func(alloc: Global, out: &mut Bytes, f: &FuncTree) -> Result<(), NoMemory>
    ensures ok { OnOk result (out.new ≡ out.old ++ func_text f.now) }
    ensures err { OnErr result (out.new ≡ out.old) }
{
    let mut lines = Bytes::new(alloc);
    put_lines(alloc, &mut lines, f)?;
    out.put(lines.as_slice())
}

fn deeper(alloc: Global, indent: &[u8]) -> Result<Bytes, NoMemory>
    ensures { IfOk result (λ more. more ≡ indent.now ++ codes "  ") }
{
    let mut more = Bytes::from_slice(alloc, indent)?;
    more.put(b"  ")?;
    Ok(more)
}

#[tactic(auto, unfolding(text_model::specs::PrintedOps::head_text))]
fn put_head(out: &mut Bytes, table: &Table, op: &OpTree) -> Result<(), NoMemory>
    ensures { OnOk result (out.new ≡ out.old ++ head_text (names_in table.now) (out-OpTree op.now)) }
{
    put_results_lead(out, table, op.results.as_slice())?;
    put_string(out, op.name.as_slice())?;
    put_operands(out, table, op.operands.as_slice())?;
    put_successors(out, table, op.successors.as_slice())?;
    put_props(out, op.props.as_slice())
}

#[tactic(auto, unfolding(text_model::specs::PrintedOps::tail_text))]
fn put_tail(out: &mut Bytes, table: &Table, op: &OpTree) -> Result<(), NoMemory>
    ensures { OnOk result (out.new ≡ out.old ++ tail_text (names_in table.now) (out-OpTree op.now)) }
{
    put_attrs(out, op.attrs.as_slice())?;
    out.put(b" : ")?;
    put_signature(out, table, op.operands.as_slice(), op.results.as_slice())?;
    out.put(b"\n")
}

#[cycle(put_op)]
#[tactic(auto, using(text_model::proofs::PrintedLemmas::text_laws))]
fn put_op(
    alloc: Global,
    out: &mut Bytes,
    table: &Table,
    indent: &[u8],
    op: &OpTree,
) -> Result<(), NoMemory>
    ensures { OnOk result (out.new ≡ out.old ++ op_text (names_in table.now) op.now indent.now) }
{
    out.put(indent)?;
    put_head(out, table, op)?;
    put_regions(alloc, out, table, indent, op.regions.as_slice())?;
    put_tail(out, table, op)
}

#[cycle(put_op)]
#[tactic(auto, using(text_model::proofs::PrintedLemmas::text_laws))]
fn put_regions(
    alloc: Global,
    out: &mut Bytes,
    table: &Table,
    indent: &[u8],
    regions: &[RegionTree],
) -> Result<(), NoMemory>
    ensures { OnOk result (out.new ≡ out.old
        ++ regions_text (map (λ r. r indent.now) (map (region_text (names_in table.now)) regions.now))) }
{
    if let [first, rest @ ..] = regions {
        out.put(b" (")?;
        put_region(alloc, out, table, indent, first)?;
        for region in rest {
            out.put(b", ")?;
            put_region(alloc, out, table, indent, region)?;
        }
        out.put(b")")?;
    }
    Ok(())
}

#[cycle(put_op)]
#[tactic(auto, using(text_model::proofs::PrintedLemmas::text_laws))]
fn put_region(
    alloc: Global,
    out: &mut Bytes,
    table: &Table,
    indent: &[u8],
    region: &RegionTree,
) -> Result<(), NoMemory>
    ensures { OnOk result (out.new
        ≡ out.old ++ region_text (names_in table.now) region.now indent.now) }
{
    out.put(b"{\n")?;
    put_blocks(alloc, out, table, indent, region.blocks.as_slice())?;
    out.put(indent)?;
    out.put(b"}")
}

#[cycle(put_op)]
#[tactic(auto, using(text_model::proofs::PrintedLemmas::text_laws))]
fn put_blocks(
    alloc: Global,
    out: &mut Bytes,
    table: &Table,
    indent: &[u8],
    blocks: &[BlockTree],
) -> Result<(), NoMemory>
    ensures { OnOk result (out.new ≡ out.old
        ++ blocks_text (names_in table.now) indent.now (map (block_parts (names_in table.now)) blocks.now)) }
{
    if let [first, rest @ ..] = blocks {
        put_first(alloc, out, table, indent, first)?;
        let mut position = 1;
        for block in rest {
            put_block(alloc, out, table, indent, position, block)?;
            position = next(position)?;
        }
    }
    Ok(())
}

#[cycle(put_op)]
#[tactic(auto, using(text_model::proofs::PrintedLemmas::text_laws))]
fn put_first(
    alloc: Global,
    out: &mut Bytes,
    table: &Table,
    indent: &[u8],
    block: &BlockTree,
) -> Result<(), NoMemory>
    ensures { OnOk result (out.new ≡ out.old
        ++ first_block (names_in table.now) indent.now (block_parts (names_in table.now) block.now)) }
{
    if shows_label(table, block) {
        return put_block(alloc, out, table, indent, 0, block);
    }
    put_body(alloc, out, table, indent, block.ops.as_slice())
}

#[tactic(auto, using(text_model::proofs::PrintedLemmas::text_laws))]
fn shows_label(table: &Table, block: &BlockTree) -> bool
    ensures { result ≡ shows_label (names_in table.now) (block_parts (names_in table.now) block.now) }
{
    let (args, ops) = (block.args.as_slice(), block.ops.as_slice());
    !has_none(args) || has_none(ops) || table.targets.contains(&block.label)
}

fn has_none<T>(items: &[T]) -> bool
    ensures { result ≡ has_none items.now }
{
    match items {
        [] => true,
        _ => false,
    }
}

#[cycle(put_op)]
#[tactic(auto, using(text_model::proofs::PrintedLemmas::text_laws))]
fn put_block(
    alloc: Global,
    out: &mut Bytes,
    table: &Table,
    indent: &[u8],
    position: u64,
    block: &BlockTree,
) -> Result<(), NoMemory>
    ensures { OnOk result (out.new ≡ out.old
        ++ block_text (names_in table.now) indent.now position (block_parts (names_in table.now) block.now)) }
{
    put_label_line(out, table, indent, position, block.args.as_slice())?;
    put_body(alloc, out, table, indent, block.ops.as_slice())
}

#[cycle(put_op)]
#[tactic(auto, using(text_model::proofs::PrintedLemmas::text_laws))]
fn put_body(
    alloc: Global,
    out: &mut Bytes,
    table: &Table,
    indent: &[u8],
    ops: &[OpTree],
) -> Result<(), NoMemory>
    ensures { OnOk result (out.new ≡ out.old
        ++ flat_map (λ o. o (indent.now ++ codes "  ")) (map (op_text (names_in table.now)) ops.now)) }
{
    let inner = deeper(alloc, indent)?;
    put_ops(alloc, out, table, inner.as_slice(), ops)?;
    Ok(())
}

#[cycle(put_op)]
#[tactic(auto, using(text_model::proofs::PrintedLemmas::text_laws))]
fn put_ops(
    alloc: Global,
    out: &mut Bytes,
    table: &Table,
    indent: &[u8],
    ops: &[OpTree],
) -> Result<(), NoMemory>
    ensures { OnOk result (out.new ≡ out.old
        ++ flat_map (λ o. o indent.now) (map (op_text (names_in table.now)) ops.now)) }
{
    for op in ops {
        put_op(alloc, out, table, indent, op)?;
    }
    Ok(())
}
