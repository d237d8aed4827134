//! Whether two functions are equal but for the numbers in them.

ghost use Rattle.std.specs.Prelude.{◌≡◌, ◌↔◌, IsTrue, map};
ghost use Rattle.tree_shape.specs.WithoutNumbers.{types_alone, op_without_numbers, region_without_numbers, block_without_numbers};

use tree_model::{BlockTree, OpTree, RegionTree, TypeTree, same_dict, same_type};

/// Whether two operations are equal where no number is looked at.
#[cycle(alike)]
pub fn alike_op(a: &OpTree, b: &OpTree) -> bool
    ensures { IsTrue result ↔ (op_without_numbers a.now ≡ op_without_numbers b.now) }
{
    if a.name != b.name {
        return false;
    }
    if !alike_values(a.results.as_slice(), b.results.as_slice()) {
        return false;
    }
    if a.operands.len() != b.operands.len() {
        return false;
    }
    if !same_dict(a.props.as_slice(), b.props.as_slice()) {
        return false;
    }
    if !same_dict(a.attrs.as_slice(), b.attrs.as_slice()) {
        return false;
    }
    if a.successors.len() != b.successors.len() {
        return false;
    }
    alike_regions(a.regions.as_slice(), b.regions.as_slice())
}

#[cycle(alike)]
fn alike_regions(a: &[RegionTree], b: &[RegionTree]) -> bool
    ensures { IsTrue result ↔ (map region_without_numbers a.now ≡ map region_without_numbers b.now) }
{
    if a.len() != b.len() {
        return false;
    }
    for (r, s) in a.iter().zip(b) {
        if !alike_region(r, s) {
            return false;
        }
    }
    true
}

#[cycle(alike)]
fn alike_region(a: &RegionTree, b: &RegionTree) -> bool
    ensures { IsTrue result ↔ (region_without_numbers a.now ≡ region_without_numbers b.now) }
{
    alike_blocks(a.blocks.as_slice(), b.blocks.as_slice())
}

#[cycle(alike)]
fn alike_blocks(a: &[BlockTree], b: &[BlockTree]) -> bool
    ensures { IsTrue result ↔ (map block_without_numbers a.now ≡ map block_without_numbers b.now) }
{
    if a.len() != b.len() {
        return false;
    }
    for (v, w) in a.iter().zip(b) {
        if !alike_block(v, w) {
            return false;
        }
    }
    true
}

#[cycle(alike)]
fn alike_block(a: &BlockTree, b: &BlockTree) -> bool
    ensures { IsTrue result ↔ (block_without_numbers a.now ≡ block_without_numbers b.now) }
{
    if !alike_values(a.args.as_slice(), b.args.as_slice()) {
        return false;
    }
    alike_ops(a.ops.as_slice(), b.ops.as_slice())
}

#[cycle(alike)]
fn alike_ops(a: &[OpTree], b: &[OpTree]) -> bool
    ensures { IsTrue result ↔ (map op_without_numbers a.now ≡ map op_without_numbers b.now) }
{
    if a.len() != b.len() {
        return false;
    }
    for (o, p) in a.iter().zip(b) {
        if !alike_op(o, p) {
            return false;
        }
    }
    true
}

/// Whether two lists of values have the same types.
fn alike_values(a: &[(u32, TypeTree)], b: &[(u32, TypeTree)]) -> bool
    ensures { IsTrue result ↔ (types_alone a.now ≡ types_alone b.now) }
{
    if a.len() != b.len() {
        return false;
    }
    for (v, w) in a.iter().zip(b) {
        if !same_type(&v.1, &w.1) {
            return false;
        }
    }
    true
}
