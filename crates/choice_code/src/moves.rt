//! The steps of an inner template in a product's place.

ghost use Rattle.std.specs.Prelude.{◌≡◌, ◌+◌, ◌++◌, ℕ, List, IfOk, OnOk, get_or, map};
ghost use Rattle.conversion_model.specs.Chosen.{after, here as source_here, made_by as values_of, moved_step as step_moved, placed as source_placed};
ghost use Rattle.choice_code.specs.Drafts.{done_of, state_of};
ghost use Rattle.choice_code.specs.Plain.{plain_step, plain_template};

use crate::draft::{Draft, copy_types, found_or};
use conversion_model::{Source, SourceList, StepList, StepTree, TemplateTree};
use sqlite_items::Items;
use std::alloc::{AllocError, Global};
use tree_model::{IdList, NoMemory, copy_dict};

fn placed(operands: &[Source], base: u32, source: Source) -> Result<Source, NoMemory>
    ensures { IfOk result (λ r. r ≡ source_placed operands.now base source) }
{
    match source {
        Source::Operand(place) => Ok(found_or(operands, place, source)),
        Source::Made(place) => match base.checked_add(place) {
            Some(number) => Ok(Source::Made(number)),
            None => Err(AllocError),
        },
    }
}

fn all_placed(
    alloc: Global,
    operands: &[Source],
    base: u32,
    sources: &[Source],
) -> Result<SourceList, NoMemory>
    ensures { IfOk result (λ rs. rs ≡ map (source_placed operands.now base) sources.now) }
{
    let mut all = Items::new(alloc);
    'each: for source in sources {
        all.push(placed(operands, base, *source)?)?;
    }
    Ok(all)
}

fn successor_at(successors: &[u32], place: u32) -> u32
    ensures { result ≡ get_or successors.now place 0 }
{
    match successors.get(place as usize) {
        Some(successor) => *successor,
        None => 0,
    }
}

fn successors_at(alloc: Global, successors: &[u32], places: &[u32]) -> Result<IdList, NoMemory>
    ensures { IfOk result (λ ss. ss ≡ map (λ k. get_or successors.now k 0) places.now) }
{
    let mut all = Items::new(alloc);
    'each: for place in places {
        all.push(successor_at(successors, *place))?;
    }
    Ok(all)
}

fn moved_step(
    alloc: Global,
    operands: &[Source],
    base: u32,
    successors: &[u32],
    step: &StepTree,
) -> Result<StepTree, NoMemory>
    ensures { IfOk result (λ s. plain_step s ≡ step_moved operands.now base successors.now (plain_step step.now)) }
{
    let name = step.name.copy(alloc)?;
    let props = copy_dict(alloc, step.props.as_slice())?;
    let sources = all_placed(alloc, operands, base, step.sources.as_slice())?;
    let successors = successors_at(alloc, successors, step.successors.as_slice())?;
    let makes = copy_types(alloc, step.makes.as_slice())?;
    Ok(StepTree {
        name,
        props,
        sources,
        successors,
        makes,
    })
}

fn move_steps(
    alloc: Global,
    operands: &[Source],
    base: u32,
    successors: &[u32],
    steps: &[StepTree],
    out: &mut StepList,
) -> Result<(), NoMemory>
    ensures { OnOk result (map plain_step out.new ≡ map plain_step out.old ++ map (step_moved operands.now base successors.now) (map plain_step steps.now)) }
{
    'each: for step in steps {
        out.push(moved_step(alloc, operands, base, successors, step)?)?;
    }
    Ok(())
}

fn sum(a: u32, b: usize) -> Result<u32, NoMemory>
    ensures { IfOk result (λ n. n ≡ a + b) }
{
    let Ok(b) = u32::try_from(b) else {
        return Err(AllocError);
    };
    match a.checked_add(b) {
        Some(sum) => Ok(sum),
        None => Err(AllocError),
    }
}

/// How many values steps make.
fn made_by(steps: &[StepTree]) -> Result<u32, NoMemory>
    ensures { IfOk result (λ n. n ≡ values_of (map plain_step steps.now)) }
{
    let mut count = 0;
    'each: for step in steps {
        count = sum(count, step.makes.len())?;
    }
    Ok(count)
}

impl Draft {
    /// The steps of the inner template go behind those so far.
    fn put_steps(
        &mut self,
        alloc: Global,
        operands: &[Source],
        successors: &[u32],
        inner: &TemplateTree,
    ) -> Result<(), NoMemory>
        ensures done { OnOk result (done_of self.new ≡ done_of self.old ++ map (step_moved operands.now self.old.count successors.now) (plain_template inner.now).steps) }
        ensures state { state_of self.new ≡ state_of self.old }
    {
        let base = self.count;
        move_steps(
            alloc,
            operands,
            base,
            successors,
            inner.steps.as_slice(),
            &mut self.steps,
        )
    }

    /// The values of the product are those that the inner template gives.
    fn put_values(
        &mut self,
        alloc: Global,
        operands: &[Source],
        step: &StepTree,
        inner: &TemplateTree,
    ) -> Result<(), NoMemory>
        requires { operands.now ≡ map (source_here (state_of self.old)) step.now.sources }
        ensures state { OnOk result (state_of self.new ≡ after (state_of self.old) (plain_step step.now) (plain_template inner.now)) }
        ensures done { done_of self.new ≡ done_of self.old }
    {
        let count = sum(self.count, made_by(inner.steps.as_slice())? as usize)?;
        let made = all_placed(alloc, operands, self.count, inner.results.as_slice())?;
        let types = copy_types(alloc, step.makes.as_slice())?;
        self.made.append(made)?;
        self.made_types.append(types)?;
        self.count = count;
        Ok(())
    }

    /// The inner template stands in the place of a product.
    pub fn put(
        &mut self,
        alloc: Global,
        step: &StepTree,
        inner: &TemplateTree,
    ) -> Result<(), NoMemory>
        ensures done { OnOk result (done_of self.new ≡ done_of self.old ++ map (step_moved (map (source_here (state_of self.old)) step.now.sources) self.old.count step.now.successors) (plain_template inner.now).steps) }
        ensures state { OnOk result (state_of self.new ≡ after (state_of self.old) (plain_step step.now) (plain_template inner.now)) }
    {
        let operands = self.all_here(alloc, step.sources.as_slice())?;
        self.put_steps(
            alloc,
            operands.as_slice(),
            step.successors.as_slice(),
            inner,
        )?;
        self.put_values(alloc, operands.as_slice(), step, inner)?;
        Ok(())
    }
}
