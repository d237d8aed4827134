//! The parts of an operation's text besides its regions.

ghost use Rattle.std.specs.Prelude.{◌≡◌, ◌++◌, OnOk, map, false};
ghost use Rattle.tree_text.specs.TypeText.{listed, results_text, printed, text_at};
ghost use Rattle.text_model.specs.PrintedOps.{found_number, found_name, found_type, found_label, results_lead, operands_text, successors_text, props_text, attrs_text, op_signature, argument_text, arguments_text, label_line};
ghost use Rattle.generic_printer.specs.NamesIn.{names_in};

use crate::table::Table;
use text_model::ValueName;
use tree_model::{AttrTree, Bytes, Name, NoMemory, TypeTree};
use tree_text::{is_function, put_dict, put_type};

fn put_number_of(out: &mut Bytes, name: Option<ValueName>) -> Result<(), NoMemory>
    ensures { OnOk result (out.new ≡ out.old ++ found_number name) }
{
    match name {
        Some(ValueName::Argument(n)) => {
            out.put(b"%arg")?;
            out.put_number(n)
        }
        Some(ValueName::Single(n) | ValueName::Part(n, _)) => {
            out.put(b"%")?;
            out.put_number(n)
        }
        None => out.put(b"%?"),
    }
}

fn put_name(out: &mut Bytes, name: Option<ValueName>) -> Result<(), NoMemory>
    ensures { OnOk result (out.new ≡ out.old ++ found_name name) }
{
    put_number_of(out, name)?;
    if let Some(ValueName::Part(_, k)) = name {
        out.put(b"#")?;
        out.put_number(k)?;
    }
    Ok(())
}

fn put_value_type(out: &mut Bytes, table: &Table, value: u32) -> Result<(), NoMemory>
    ensures { OnOk result (out.new
        ≡ out.old ++ text_at false (found_type ((names_in table.now).type_of value))) }
{
    match table.values.get(&value) {
        Some(named) => put_type(out, named.of),
        None => out.put(b"?"),
    }
}

fn put_label(out: &mut Bytes, table: &Table, label: u32) -> Result<(), NoMemory>
    ensures { OnOk result (out.new ≡ out.old ++ found_label ((names_in table.now).position label)) }
{
    match table.positions.get(&label) {
        Some(position) => {
            out.put(b"^bb")?;
            out.put_number(*position)
        }
        None => out.put(b"^bb?"),
    }
}

/// Appends what stands before an operation's name.
pub fn put_results_lead(
    out: &mut Bytes,
    table: &Table,
    results: &[(u32, TypeTree)],
) -> Result<(), NoMemory>
    ensures { OnOk result (out.new ≡ out.old ++ results_lead (names_in table.now) results.now) }
{
    match results {
        [] => Ok(()),
        [only] => {
            put_name(out, table.name_of(only.0))?;
            out.put(b" = ")
        }
        [first, ..] => {
            put_number_of(out, table.name_of(first.0))?;
            out.put(b":")?;
            out.put_number(results.len() as u64)?;
            out.put(b" = ")
        }
    }
}

/// Appends the operands in parentheses.
pub fn put_operands(out: &mut Bytes, table: &Table, operands: &[u32]) -> Result<(), NoMemory>
    ensures { OnOk result (out.new ≡ out.old ++ operands_text (names_in table.now) operands.now) }
{
    out.put(b"(")?;
    if let [first, rest @ ..] = operands {
        put_name(out, table.name_of(*first))?;
        for value in rest {
            out.put(b", ")?;
            put_name(out, table.name_of(*value))?;
        }
    }
    out.put(b")")
}

/// Appends the successors in brackets, or nothing.
pub fn put_successors(out: &mut Bytes, table: &Table, labels: &[u32]) -> Result<(), NoMemory>
    ensures { OnOk result (out.new ≡ out.old ++ successors_text (names_in table.now) labels.now) }
{
    if let [first, rest @ ..] = labels {
        out.put(b"[")?;
        put_label(out, table, *first)?;
        for label in rest {
            out.put(b", ")?;
            put_label(out, table, *label)?;
        }
        out.put(b"]")?;
    }
    Ok(())
}

/// Appends the properties, or nothing.
pub fn put_props(out: &mut Bytes, entries: &[(Name, AttrTree)]) -> Result<(), NoMemory>
    ensures { OnOk result (out.new ≡ out.old ++ props_text entries.now) }
{
    if entries.is_empty() {
        return Ok(());
    }
    out.put(b" <{")?;
    put_dict(out, entries)?;
    out.put(b"}>")
}

/// Appends the attributes, or nothing.
pub fn put_attrs(out: &mut Bytes, entries: &[(Name, AttrTree)]) -> Result<(), NoMemory>
    ensures { OnOk result (out.new ≡ out.old ++ attrs_text entries.now) }
{
    if entries.is_empty() {
        return Ok(());
    }
    out.put(b" {")?;
    put_dict(out, entries)?;
    out.put(b"}")
}

/// Appends the function type of an operation.
pub fn put_signature(
    out: &mut Bytes,
    table: &Table,
    operands: &[u32],
    results: &[(u32, TypeTree)],
) -> Result<(), NoMemory>
    ensures { OnOk result (out.new
        ≡ out.old ++ op_signature (names_in table.now) operands.now results.now) }
{
    put_inputs(out, table, operands)?;
    out.put(b" -> ")?;
    put_outputs(out, results)
}

fn put_inputs(out: &mut Bytes, table: &Table, operands: &[u32]) -> Result<(), NoMemory>
    ensures { OnOk result (out.new ≡ out.old
        ++ listed false (map (λ v. found_type ((names_in table.now).type_of v)) operands.now)) }
{
    out.put(b"(")?;
    if let [first, rest @ ..] = operands {
        put_value_type(out, table, *first)?;
        for value in rest {
            out.put(b", ")?;
            put_value_type(out, table, *value)?;
        }
    }
    out.put(b")")
}

fn put_outputs(out: &mut Bytes, results: &[(u32, TypeTree)]) -> Result<(), NoMemory>
    ensures { OnOk result (out.new ≡ out.old ++ results_text (map (λ r. printed r.1) results.now)) }
{
    if let [only] = results {
        if !is_function(&only.1) {
            return put_type(out, &only.1);
        }
    }
    put_listed_outputs(out, results)
}

fn put_listed_outputs(out: &mut Bytes, results: &[(u32, TypeTree)]) -> Result<(), NoMemory>
    ensures { OnOk result (out.new ≡ out.old ++ listed false (map (λ r. printed r.1) results.now)) }
{
    out.put(b"(")?;
    if let [first, rest @ ..] = results {
        put_type(out, &first.1)?;
        for value in rest {
            out.put(b", ")?;
            put_type(out, &value.1)?;
        }
    }
    out.put(b")")
}

fn put_argument(out: &mut Bytes, table: &Table, value: &(u32, TypeTree)) -> Result<(), NoMemory>
    ensures { OnOk result (out.new ≡ out.old ++ argument_text (names_in table.now) value.now) }
{
    put_name(out, table.name_of(value.0))?;
    out.put(b": ")?;
    put_type(out, &value.1)
}

fn put_arguments(out: &mut Bytes, table: &Table, values: &[(u32, TypeTree)]) -> Result<(), NoMemory>
    ensures { OnOk result (out.new ≡ out.old ++ arguments_text (names_in table.now) values.now) }
{
    if let [first, rest @ ..] = values {
        out.put(b"(")?;
        put_argument(out, table, first)?;
        for value in rest {
            out.put(b", ")?;
            put_argument(out, table, value)?;
        }
        out.put(b")")?;
    }
    Ok(())
}

/// Appends the line of a block's label.
pub fn put_label_line(
    out: &mut Bytes,
    table: &Table,
    indent: &[u8],
    position: u64,
    arguments: &[(u32, TypeTree)],
) -> Result<(), NoMemory>
    ensures { OnOk result (out.new
        ≡ out.old ++ label_line (names_in table.now) indent.now position arguments.now) }
{
    out.put(indent)?;
    out.put(b"^bb")?;
    out.put_number(position)?;
    put_arguments(out, table, arguments)?;
    out.put(b":\n")
}
