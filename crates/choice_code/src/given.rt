//! Casts behind the products.

ghost use Rattle.std.specs.Prelude.{◌≡◌, ℕ, true, false, Option, Some, IfOk, OnOk, [], is_some, map};
ghost use Rattle.plain_tree.specs.Types.{PlainType, plain_type};
ghost use Rattle.conversion_model.specs.Templates.{Template};
ghost use Rattle.conversion_model.specs.Chosen.{change_of, give_one as one_given, give_results as all_given, here as source_here};
ghost use Rattle.choice_code.specs.Drafts.{behind, done_of, state_of};
ghost use Rattle.choice_code.specs.Givens.{joined, no_more};
ghost use Rattle.choice_code.specs.Plain.{plain_template};

use crate::casts::{cast_step, type_changes};
use crate::draft::Draft;
use conversion_model::{Source, SourceList, StepList, TemplateTree};
use sqlite_items::Items;
use std::alloc::{AllocError, Global};
use tree_model::{NoMemory, TypeTree, copy_type};

/// A template that is given result by result.
#[derive(Drop)]
pub struct Given {
    pub steps: StepList,
    pub results: SourceList,
    pub count: u32,
}

impl Given {
    #[tactic(auto, using(crate::proofs::GivenLaws::same_given))]
    fn give_same(&mut self, value: Source) -> Result<(), NoMemory>
        ensures { OnOk result ((next : ℕ → Template) (t : PlainType) (change : Option PlainType) → is_some change ≡ false → joined self.old (one_given change value t next self.old.count) ≡ joined self.new (next self.new.count)) }
    {
        self.results.push(value)?;
        Ok(())
    }

    #[tactic(auto, using(crate::proofs::GivenLaws::cast_given))]
    fn give_changed(&mut self, alloc: Global, value: Source, t: &TypeTree) -> Result<(), NoMemory>
        ensures { OnOk result ((next : ℕ → Template) (change : Option PlainType) → is_some change ≡ true → joined self.old (one_given change value (plain_type t.now) next self.old.count) ≡ joined self.new (next self.new.count)) }
    {
        let Some(count) = self.count.checked_add(1) else {
            return Err(AllocError);
        };
        let t = copy_type(alloc, t)?;
        let cast = cast_step(alloc, value, t)?;
        self.steps.push(cast)?;
        self.results.push(Source::Made(self.count))?;
        self.count = count;
        Ok(())
    }

    /// A result, with a cast behind where its type changes.
    fn give_one(
        &mut self,
        alloc: Global,
        bits: u32,
        converted: bool,
        value: Source,
        t: &TypeTree,
    ) -> Result<(), NoMemory>
        ensures { OnOk result ((next : ℕ → Template) → joined self.old (one_given (change_of bits converted (plain_type t.now)) value (plain_type t.now) next self.old.count) ≡ joined self.new (next self.new.count)) }
    {
        if type_changes(bits, converted, t) {
            self.give_changed(alloc, value, t)?;
            return Ok(());
        }
        self.give_same(value)?;
        Ok(())
    }

    /// Each result in order.
    fn give_results(
        &mut self,
        alloc: Global,
        bits: u32,
        converted: bool,
        types: &[TypeTree],
        values: &[Source],
    ) -> Result<(), NoMemory>
        ensures { OnOk result (joined self.old (all_given (change_of bits converted) (map plain_type types.now) values.now self.old.count) ≡ joined self.new no_more) }
    {
        'each: for (place, t) in types.iter().enumerate() {
            let Some(value) = values.get(place) else {
                return Ok(());
            };
            self.give_one(alloc, bits, converted, *value, t)?;
        }
        Ok(())
    }
}

/// The template of a derivation that is at its end.
#[tactic(auto, using(crate::proofs::GivenLaws::ended))]
pub fn finish(
    alloc: Global,
    bits: u32,
    converted: bool,
    types: &[TypeTree],
    results: &[Source],
    draft: Draft,
) -> Result<TemplateTree, NoMemory>
    ensures { IfOk result (λ t. Some (plain_template t) ≡ behind (done_of draft) (Some (all_given (change_of bits converted) (map plain_type types.now) (map (source_here (state_of draft)) results.now) draft.count))) }
{
    let values = draft.all_here(alloc, results)?;
    let mut given = start(alloc, draft);
    given.give_results(alloc, bits, converted, types, values.as_slice())?;
    let Given {
        steps,
        results,
        count: _,
    } = given;
    Ok(TemplateTree { steps, results })
}

fn start(alloc: Global, draft: Draft) -> Given
    ensures steps { result.steps ≡ draft.steps }
    ensures results { result.results ≡ [] }
    ensures count { result.count ≡ draft.count }
{
    let Draft {
        steps,
        operands: _,
        operand_types: _,
        made: _,
        made_types: _,
        count,
    } = draft;
    Given {
        steps,
        results: Items::new(alloc),
        count,
    }
}
