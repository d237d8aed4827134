//! Templates written with numbers.

ghost use Rattle.std.specs.Prelude.{◌≡◌, ◌∷◌, ◌++◌, ℕ, IfOk, List, OnOk, length, map};
ghost use Rattle.plain_tree.specs.Types.{plain_type};
ghost use Rattle.plain_tree.specs.Ops.{plain_op, plain_values};
ghost use Rattle.choice_code.specs.Plain.{plain_step, plain_template};
ghost use Rattle.conversion_model.specs.Templates.{copies, label_at, labels_at, number_of, step_op, steps_written, values_made, written};
ghost use Rattle.new_numbers.specs.Tables.{numbering_of, supply_of};
ghost use Rattle.unit_writer.specs.Names.{Asked, copies_from, name_by};
ghost use Rattle.unit_writer.specs.Writes.{WritesLine, state_of};

use crate::guide::{no_copy, sum};
use crate::kept::op_of;
use crate::names::Names;
use crate::notes::Notes;
use crate::page::Page;
use conversion_model::{Source, StepTree, TemplateTree};
use new_numbers::NewNumbers;
use std::alloc::{AllocError, Global};
use tree_model::{IdList, NoMemory, OpTree, TypeTree, ValueList, copy_dict, copy_type, room_for};

/// What a template is written with: the numbers of its values, and the operands and successors of what it replaces.
#[derive(Drop)]
pub struct Line<'a> {
    pub alloc: Global,
    pub names: Names,
    pub operands: &'a [u32],
    pub labels: &'a [u32],
}

/// The values and labels of an operation that is replaced.
#[derive(Drop)]
pub struct Replaced<'a> {
    pub results: &'a [(u32, TypeTree)],
    pub operands: &'a [u32],
    pub labels: &'a [u32],
}

/// How many values a step makes.
fn count_of(step: &StepTree) -> Result<u32, NoMemory>
    ensures { IfOk result (λ n. n ≡ length (plain_step step.now).makes) }
{
    match u32::try_from(step.makes.len()) {
        Ok(count) => Ok(count),
        Err(_) => Err(AllocError),
    }
}

impl<'a> Line<'a> {
    fn number(&self, source: Source, numbers: &mut NewNumbers) -> Result<u32, NoMemory>
        ensures { IfOk result (λ n. Asked (numbering_of numbers.old) (numbering_of numbers.new) (λ u. number_of (name_by self.now.names u) self.now.operands.now source ≡ n)) }
    {
        match source {
            Source::Operand(place) => match self.operands.get(place as usize) {
                Some(operand) => Ok(*operand),
                None => Ok(self.names.name(0, numbers)?),
            },
            Source::Made(place) => Ok(self.names.name(place, numbers)?),
        }
    }

    fn numbers(&self, sources: &[Source], numbers: &mut NewNumbers) -> Result<IdList, NoMemory>
        ensures { IfOk result (λ ns. Asked (numbering_of numbers.old) (numbering_of numbers.new) (λ u. map (number_of (name_by self.now.names u) self.now.operands.now) sources.now ≡ ns)) }
    {
        let mut list = room_for(self.alloc, sources.len())?;
        for source in sources {
            let number = self.number(*source, numbers)?;
            list.push(number)?;
        }
        Ok(list)
    }

    /// Values of these types, named from the first place on.
    fn values(
        &self,
        first: u32,
        types: &[TypeTree],
        numbers: &mut NewNumbers,
    ) -> Result<ValueList, NoMemory>
        ensures { IfOk result (λ vs. Asked (numbering_of numbers.old) (numbering_of numbers.new) (λ u. values_made (name_by self.now.names u) first (map plain_type types.now) ≡ plain_values vs)) }
    {
        let mut list = room_for(self.alloc, types.len())?;
        let mut place = first;
        for t in types {
            let number = self.names.name(place, numbers)?;
            list.push((number, copy_type(self.alloc, t)?))?;
            place = sum(place, 1)?;
        }
        Ok(list)
    }

    /// The label at a place, where there is one.
    fn push_label(&self, place: u32, list: &mut IdList) -> Result<(), NoMemory>
        ensures { OnOk result ((more : List ℕ) → list.new ++ more ≡ list.old ++ label_at self.now.labels.now place more) }
    {
        match self.labels.get(place as usize) {
            Some(label) => {
                list.push(*label)?;
                Ok(())
            }
            None => Ok(()),
        }
    }

    fn successors(&self, places: &[u32]) -> Result<IdList, NoMemory>
        ensures { IfOk result (λ ls. ls ≡ labels_at self.now.labels.now places.now) }
    {
        let mut list = room_for(self.alloc, places.len())?;
        for place in places {
            self.push_label(*place, &mut list)?;
        }
        Ok(list)
    }

    /// The operation of a step whose first value has this place.
    fn op(&self, first: u32, step: &StepTree, numbers: &mut NewNumbers) -> Result<OpTree, NoMemory>
        ensures { IfOk result (λ o. Asked (numbering_of numbers.old) (numbering_of numbers.new) (λ u. step_op (name_by self.now.names u) self.now.operands.now self.now.labels.now first (plain_step step.now) ≡ plain_op o)) }
    {
        let results = self.values(first, step.makes.as_slice(), numbers)?;
        let operands = self.numbers(step.sources.as_slice(), numbers)?;
        let successors = self.successors(step.successors.as_slice())?;
        let name = step.name.copy(self.alloc)?;
        let props = copy_dict(self.alloc, step.props.as_slice())?;
        Ok(op_of(self.alloc, name, props, results, operands, successors))
    }

    fn put(
        &self,
        first: u32,
        step: &StepTree,
        page: &mut Page,
        notes: &mut Notes,
    ) -> Result<(), NoMemory>
        ensures { OnOk result (WritesLine (λ u rest. step_op (name_by self.now.names u) self.now.operands.now self.now.labels.now first (plain_step step.now) ∷ rest) (state_of page.old notes.old) (state_of page.new notes.new)) }
    {
        let op = self.op(first, step, &mut notes.numbers)?;
        no_copy(&op.name);
        page.put(op)?;
        Ok(())
    }

    fn put_all(
        &self,
        steps: &[StepTree],
        page: &mut Page,
        notes: &mut Notes,
    ) -> Result<(), NoMemory>
        ensures { OnOk result (WritesLine (λ u rest. steps_written (name_by self.now.names u) self.now.operands.now self.now.labels.now 0 (map plain_step steps.now) rest) (state_of page.old notes.old) (state_of page.new notes.new)) }
    {
        let mut first = 0;
        for step in steps {
            self.put(first, step, page, notes)?;
            first = sum(first, count_of(step)?)?;
        }
        Ok(())
    }

    /// A result stands for a source, which is a copy unless they are one value.
    fn stand(
        &self,
        known: &(u32, TypeTree),
        source: Source,
        page: &Page,
        notes: &mut Notes,
    ) -> Result<(), NoMemory>
        ensures { OnOk result (WritesLine (λ u rest. copies_from (number_of (name_by self.now.names u) self.now.operands.now source) (known.now.0, plain_type known.now.1) rest) (state_of page.now notes.old) (state_of page.now notes.new)) }
    {
        let number = self.number(source, &mut notes.numbers)?;
        if number != known.0 {
            notes.pairs.push((known.0, number))?;
        }
        Ok(())
    }

    fn stand_all(
        &self,
        results: &[(u32, TypeTree)],
        sources: &[Source],
        page: &Page,
        notes: &mut Notes,
    ) -> Result<(), NoMemory>
        ensures { OnOk result (WritesLine (λ u rest. copies (name_by self.now.names u) self.now.operands.now (plain_values results.now) sources.now rest) (state_of page.now notes.old) (state_of page.now notes.new)) }
    {
        for (index, known) in results.iter().enumerate() {
            let Some(source) = sources.get(index) else {
                return Ok(());
            };
            self.stand(known, *source, page, notes)?;
        }
        Ok(())
    }
}

/// A template in the place of an operation with these results, operands and successors.
pub fn write_template(
    alloc: Global,
    template: &TemplateTree,
    place: (u32, u32),
    of: &Replaced<'_>,
    page: &mut Page,
    notes: &mut Notes,
) -> Result<(), NoMemory>
    ensures { OnOk result (WritesLine (λ u rest. written ((supply_of u).value place.0 place.1) (plain_values of.now.results.now) of.now.operands.now of.now.labels.now (plain_template template.now) rest) (state_of page.old notes.old) (state_of page.new notes.new)) }
{
    let names = Names::of(
        alloc,
        place.0,
        place.1,
        of.results,
        template.results.as_slice(),
    )?;
    let line = Line {
        alloc,
        names,
        operands: of.operands,
        labels: of.labels,
    };
    line.put_all(template.steps.as_slice(), page, notes)?;
    line.stand_all(of.results, template.results.as_slice(), page, notes)?;
    Ok(())
}
