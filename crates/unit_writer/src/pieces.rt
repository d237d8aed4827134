//! The products of a cut with numbers.

ghost use Rattle.std.specs.Prelude.{◌≡◌, IfOk, drop, map};
ghost use Rattle.plain_tree.specs.Ops.{plain_op, plain_values};
ghost use Rattle.cut_code.specs.Pieces.{label_at, value_at};
ghost use Rattle.new_numbers.specs.Tables.{numbering_of, supply_of};
ghost use Rattle.unit_slots.specs.Slots.{first_line};
ghost use Rattle.unit_writer.specs.Names.{Asked, new_results, plain_line, product_op};

use crate::kept::op_of;
use conversion_model::TemplateTree;
use cut_code::{CutLabel, CutValue, ProductTree};
use new_numbers::{NewNumbers, ValuePlace};
use std::alloc::Global;
use tree_model::{IdList, NoMemory, OpTree, TypeTree, ValueList, copy_dict, copy_type, room_for};

/// The template at a place among those of a cut's products, where there is one.
pub fn line_at(lines: &[Option<TemplateTree>], index: usize) -> Option<&TemplateTree>
    ensures { plain_line result ≡ first_line (drop index lines.now) }
{
    match lines.get(index) {
        Some(Some(line)) => Some(line),
        Some(None) | None => None,
    }
}

/// A value of a cut of the operation with this number.
fn value_of(value: CutValue, number: u32, numbers: &mut NewNumbers) -> Result<u32, NoMemory>
    ensures { IfOk result (λ n. Asked (numbering_of numbers.old) (numbering_of numbers.new) (λ u. value_at ((supply_of u).row number) value ≡ n)) }
{
    match value {
        CutValue::Old(value) => Ok(value),
        CutValue::New(place) => Ok(numbers.value(ValuePlace::OfRow(number, place))?),
    }
}

/// A label of a cut of the operation with this number.
pub fn label_of(label: CutLabel, number: u32, numbers: &mut NewNumbers) -> Result<u32, NoMemory>
    ensures { IfOk result (λ n. Asked (numbering_of numbers.old) (numbering_of numbers.new) (λ u. label_at ((supply_of u).row number) label ≡ n)) }
{
    match label {
        CutLabel::Old(label) => Ok(label),
        CutLabel::New(place) => Ok(numbers.label(number, place)?),
    }
}

fn values_of(
    alloc: Global,
    values: &[CutValue],
    number: u32,
    numbers: &mut NewNumbers,
) -> Result<IdList, NoMemory>
    ensures { IfOk result (λ ns. Asked (numbering_of numbers.old) (numbering_of numbers.new) (λ u. map (value_at ((supply_of u).row number)) values.now ≡ ns)) }
{
    let mut list = room_for(alloc, values.len())?;
    for value in values {
        let value = value_of(*value, number, numbers)?;
        list.push(value)?;
    }
    Ok(list)
}

fn labels_of(
    alloc: Global,
    labels: &[CutLabel],
    number: u32,
    numbers: &mut NewNumbers,
) -> Result<IdList, NoMemory>
    ensures { IfOk result (λ ns. Asked (numbering_of numbers.old) (numbering_of numbers.new) (λ u. map (label_at ((supply_of u).row number)) labels.now ≡ ns)) }
{
    let mut list = room_for(alloc, labels.len())?;
    for label in labels {
        let label = label_of(*label, number, numbers)?;
        list.push(label)?;
    }
    Ok(list)
}

fn results_of(
    alloc: Global,
    results: &[(u32, TypeTree)],
    number: u32,
    numbers: &mut NewNumbers,
) -> Result<ValueList, NoMemory>
    ensures { IfOk result (λ vs. Asked (numbering_of numbers.old) (numbering_of numbers.new) (λ u. new_results ((supply_of u).row number) results.now ≡ plain_values vs)) }
{
    let mut list = room_for(alloc, results.len())?;
    for known in results {
        let value = numbers.value(ValuePlace::OfRow(number, known.0))?;
        list.push((value, copy_type(alloc, &known.1)?))?;
    }
    Ok(list)
}

/// The product of a cut of the operation with this number.
pub fn product_of(
    alloc: Global,
    product: &ProductTree,
    number: u32,
    numbers: &mut NewNumbers,
) -> Result<OpTree, NoMemory>
    ensures { IfOk result (λ o. Asked (numbering_of numbers.old) (numbering_of numbers.new) (λ u. product_op ((supply_of u).row number) product.now ≡ plain_op o)) }
{
    let results = results_of(alloc, product.results.as_slice(), number, numbers)?;
    let operands = values_of(alloc, product.operands.as_slice(), number, numbers)?;
    let successors = labels_of(alloc, product.successors.as_slice(), number, numbers)?;
    let name = product.name.copy(alloc)?;
    let props = copy_dict(alloc, product.props.as_slice())?;
    Ok(op_of(alloc, name, props, results, operands, successors))
}
