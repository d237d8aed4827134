//! What graphs of legality and the type table say, as text.

use legal_graph::Graph;
use std::alloc::Global;
use tree_model::{Bytes, ModuleTree, Name, NoMemory, OpTree, TypeTree};
use tree_text::put_type;
use type_table::{becomes, converted_type, is_own, new_type};
use unit_views::first_arguments;

/// The depth of a name and the places of its patterns.
pub fn put_name(
    alloc: Global,
    out: &mut Bytes,
    graph: &Graph,
    text: &[u8],
) -> Result<(), NoMemory> {
    let name = Name::from_slice(alloc, text)?;
    out.put(text)?;
    match graph.depth(&name) {
        Some(depth) => {
            out.put(b": depth ")?;
            out.put_number(u64::from(depth))?;
        }
        None => out.put(b": no depth")?,
    }
    out.put(b", patterns")?;
    for place in graph.order(&name) {
        out.put(b" ")?;
        out.put_number(u64::from(*place))?;
    }
    out.put(b"\n")
}

fn put_or_none(out: &mut Bytes, t: Option<TypeTree>) -> Result<(), NoMemory> {
    match t {
        Some(t) => put_type(out, &t),
        None => out.put(b"none"),
    }
}

/// All that the table says of a type.
fn put_row(alloc: Global, out: &mut Bytes, bits: u32, t: &TypeTree) -> Result<(), NoMemory> {
    put_type(out, t)?;
    out.put(if is_own(t) {
        b": own, new "
    } else {
        b": not own, new "
    })?;
    put_or_none(out, new_type(alloc, bits, t)?)?;
    out.put(b", converted ")?;
    put_or_none(out, converted_type(alloc, bits, t)?)?;
    out.put(b", becomes ")?;
    put_type(out, &becomes(alloc, bits, t)?)?;
    out.put(b"\n")
}

fn put_rows(alloc: Global, out: &mut Bytes, bits: u32, f: &OpTree) -> Result<(), NoMemory> {
    for argument in first_arguments(f) {
        put_row(alloc, out, bits, &argument.1)?;
    }
    Ok(())
}

/// What the table says of the types of the arguments of functions.
pub fn put_types(
    alloc: Global,
    out: &mut Bytes,
    bits: u32,
    module: &ModuleTree,
) -> Result<(), NoMemory> {
    for func in module.funcs.as_slice() {
        put_rows(alloc, out, bits, &func.op)?;
    }
    Ok(())
}
