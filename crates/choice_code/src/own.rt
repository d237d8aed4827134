//! A legal operation as a template.

ghost use Rattle.std.specs.Prelude.{◌≡◌, ℕ, IfOk, map};
ghost use Rattle.conversion_model.specs.Chosen.{counted as counted_from, itself as own_leaf, places};
ghost use Rattle.choice_code.specs.Own.{own_step as step_of, source_of};
ghost use Rattle.choice_code.specs.Plain.{plain_step, plain_template};
ghost use Rattle.row_code.specs.Shapes.{shape_of};

use crate::draft::copy_types;
use conversion_model::{Source, SourceList, StepTree, TemplateTree};
use row_code::ShapeTree;
use sqlite_items::Items;
use std::alloc::{AllocError, Global};
use tree_model::{IdList, NoMemory, TypeTree, copy_dict, one};

fn source_at(made: bool, place: usize) -> Result<Source, NoMemory>
    ensures { IfOk result (λ s. s ≡ source_of made place) }
{
    let Ok(number) = u32::try_from(place) else {
        return Err(AllocError);
    };
    Ok(if made {
        Source::Made(number)
    } else {
        Source::Operand(number)
    })
}

/// A source for each type, in order.
fn all_sources(alloc: Global, made: bool, types: &[TypeTree]) -> Result<SourceList, NoMemory>
    ensures { IfOk result (λ ss. ss ≡ map (source_of made) (places 0 types.now)) }
{
    let mut sources = Items::new(alloc);
    'each: for (place, _t) in types.iter().enumerate() {
        sources.push(source_at(made, place)?)?;
    }
    Ok(sources)
}

/// The numbers below that one.
fn counted(alloc: Global, count: u32) -> Result<IdList, NoMemory>
    ensures { IfOk result (λ ks. ks ≡ counted_from 0 count) }
{
    let mut numbers = Items::new(alloc);
    'each: for number in 0..count {
        numbers.push(number)?;
    }
    Ok(numbers)
}

#[tactic(auto, using(crate::proofs::OwnLaws::plain_places))]
fn own_step(alloc: Global, shape: &ShapeTree) -> Result<StepTree, NoMemory>
    ensures { IfOk result (λ s. plain_step s ≡ step_of (shape_of shape.now)) }
{
    let name = shape.name.copy(alloc)?;
    let props = copy_dict(alloc, shape.props.as_slice())?;
    let sources = all_sources(alloc, false, shape.operands.as_slice())?;
    let successors = counted(alloc, shape.successors)?;
    let makes = copy_types(alloc, shape.results.as_slice())?;
    Ok(StepTree {
        name,
        props,
        sources,
        successors,
        makes,
    })
}

#[tactic(auto, using(crate::proofs::OwnLaws::plain_places))]
/// A legal operation is its own leaf.
pub fn itself(alloc: Global, shape: &ShapeTree) -> Result<TemplateTree, NoMemory>
    ensures { IfOk result (λ t. plain_template t ≡ own_leaf (shape_of shape.now)) }
{
    let step = own_step(alloc, shape)?;
    let steps = one(alloc, step)?;
    let results = all_sources(alloc, true, shape.results.as_slice())?;
    Ok(TemplateTree { steps, results })
}
