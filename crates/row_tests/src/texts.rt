//! What rows write, as text: operands are `$0`, `$1`, .., values that the steps make `%0`, `%1`, .. in order.

use conversion_model::{Source, StepTree, TemplateTree};
use row_code::ShapeTree;
use tree_model::{AttrTree, Bytes, Name, NoMemory, TypeTree};
use tree_text::{put_dict, put_type};

/// A sign and a number.
pub fn put_numbered(out: &mut Bytes, sign: &[u8], number: u32) -> Result<(), NoMemory> {
    out.put(sign)?;
    out.put_number(u64::from(number))
}

/// A comma in front of all but the first.
pub fn put_comma(out: &mut Bytes, place: usize) -> Result<(), NoMemory> {
    if place == 0 {
        return Ok(());
    }
    out.put(b", ")
}

fn put_source(out: &mut Bytes, source: Source) -> Result<(), NoMemory> {
    match source {
        Source::Operand(place) => put_numbered(out, b"$", place),
        Source::Made(place) => put_numbered(out, b"%", place),
    }
}

fn put_sources(out: &mut Bytes, sources: &[Source]) -> Result<(), NoMemory> {
    for (place, source) in sources.iter().enumerate() {
        put_comma(out, place)?;
        put_source(out, *source)?;
    }
    Ok(())
}

/// Types in order.
pub fn put_types(out: &mut Bytes, types: &[TypeTree]) -> Result<(), NoMemory> {
    for (place, t) in types.iter().enumerate() {
        put_comma(out, place)?;
        put_type(out, t)?;
    }
    Ok(())
}

/// Properties, where there are any.
pub fn put_props(out: &mut Bytes, props: &[(Name, AttrTree)]) -> Result<(), NoMemory> {
    if props.is_empty() {
        return Ok(());
    }
    out.put(b" <{")?;
    put_dict(out, props)?;
    out.put(b"}>")
}

/// Attributes, where there are any.
pub fn put_attrs(out: &mut Bytes, attrs: &[(Name, AttrTree)]) -> Result<(), NoMemory> {
    if attrs.is_empty() {
        return Ok(());
    }
    out.put(b" {")?;
    put_dict(out, attrs)?;
    out.put(b"}")
}

fn put_successors(out: &mut Bytes, places: &[u32]) -> Result<(), NoMemory> {
    for place in places {
        put_numbered(out, b" ^", *place)?;
    }
    Ok(())
}

// The values of a step, from that number on; answers the number behind them.
fn put_made(out: &mut Bytes, first: u32, types: &[TypeTree]) -> Result<u32, NoMemory> {
    let mut next = first;
    for (place, _t) in types.iter().enumerate() {
        put_comma(out, place)?;
        put_numbered(out, b"%", next)?;
        next = next.saturating_add(1);
    }
    if !types.is_empty() {
        out.put(b" = ")?;
    }
    Ok(next)
}

fn put_operands(out: &mut Bytes, sources: &[Source]) -> Result<(), NoMemory> {
    if sources.is_empty() {
        return Ok(());
    }
    out.put(b" ")?;
    put_sources(out, sources)
}

fn put_made_types(out: &mut Bytes, types: &[TypeTree]) -> Result<(), NoMemory> {
    if types.is_empty() {
        return Ok(());
    }
    out.put(b" : ")?;
    put_types(out, types)
}

fn put_step(out: &mut Bytes, first: u32, step: &StepTree) -> Result<u32, NoMemory> {
    out.put(b"  ")?;
    let next = put_made(out, first, step.makes.as_slice())?;
    out.put(step.name.as_slice())?;
    put_operands(out, step.sources.as_slice())?;
    put_successors(out, step.successors.as_slice())?;
    put_props(out, step.props.as_slice())?;
    put_made_types(out, step.makes.as_slice())?;
    out.put(b"\n")?;
    Ok(next)
}

/// The steps of a template, a line each, and what its results stand for.
pub fn put_template(out: &mut Bytes, template: &TemplateTree) -> Result<(), NoMemory> {
    let mut next = 0;
    for step in template.steps.as_slice() {
        next = put_step(out, next, step)?;
    }
    let results = template.results.as_slice();
    if results.is_empty() {
        return Ok(());
    }
    out.put(b"  gives ")?;
    put_sources(out, results)?;
    out.put(b"\n")
}

/// An operation by its types.
pub fn put_shape(out: &mut Bytes, shape: &ShapeTree) -> Result<(), NoMemory> {
    out.put(shape.name.as_slice())?;
    put_props(out, shape.props.as_slice())?;
    put_attrs(out, shape.attrs.as_slice())?;
    out.put(b" : (")?;
    put_types(out, shape.operands.as_slice())?;
    out.put(b") -> (")?;
    put_types(out, shape.results.as_slice())?;
    out.put(b")\n")
}
