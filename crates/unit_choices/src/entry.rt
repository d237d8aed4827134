//! The steps at a function's start, which give its old arguments from the new parameters.

ghost use Rattle.std.specs.Prelude.{◌≡◌, ◌+◌, ◌++◌, ◌∷◌, ℕ, true, false, Option, Some, None, IfOk, OnOk, [], is_some, length, map, if◌then◌else◌};
ghost use Rattle.plain_tree.specs.Types.{PlainType, plain_type};
ghost use Rattle.conversion_model.specs.Templates.{Template};
ghost use Rattle.conversion_model.specs.Chosen.{change_of, chosen, here, products};
ghost use Rattle.conversion_model.specs.Choice.{at_part, entry_leaves, first_result as result_first, give_part, parameters_from};
ghost use Rattle.conversion_target.specs.Targets.{target_of};
ghost use Rattle.choice_code.specs.Drafts.{done_of, state_of};
ghost use Rattle.choice_code.specs.Plain.{plain_or_none, plain_step};
ghost use Rattle.unit_slots.specs.Slots.{plain_part};
ghost use Rattle.unit_choices.specs.Entries.{begun, goes_on};
ghost use Rattle.unit_choices.specs.Orders.{InOrder};

use choice_code::{Draft, Pass, cast_step, copy_types, products_on, type_changes};
use conversion_model::{Source, SourceList, TemplateTree};
use cut_code::PartTree;
use row_code::Rows;
use sqlite_items::Items;
use std::alloc::{AllocError, Global};
use tree_model::{NoMemory, TypeTree, copy_type};

/// What is made so far: the steps, what the old arguments are, and where the next new parameters stand.
#[derive(Drop)]
pub struct Entry {
    pub draft: Draft,
    pub results: SourceList,
    pub base: u32,
}

fn sum(a: u32, b: usize) -> Result<u32, NoMemory>
    ensures { IfOk result (λ n. n ≡ a + b) }
{
    let Ok(b) = u32::try_from(b) else {
        return Err(AllocError);
    };
    match a.checked_add(b) {
        Some(sum) => Ok(sum),
        None => Err(AllocError),
    }
}

/// The new parameters of these types, as operands.
fn parameters(alloc: Global, base: u32, takes: &[TypeTree]) -> Result<SourceList, NoMemory>
    ensures { IfOk result (λ ss. ss ≡ parameters_from base (map plain_type takes.now)) }
{
    let mut sources = Items::new(alloc);
    'each: for (place, _t) in takes.iter().enumerate() {
        sources.push(Source::Operand(sum(base, place)?))?;
    }
    Ok(sources)
}

fn first_result(sources: &[Source]) -> Source
    ensures { result ≡ result_first sources.now }
{
    match sources {
        [source, ..] => *source,
        [] => Source::Operand(0),
    }
}

impl Entry {
    /// A part begins, over the new parameters that it takes.
    fn begin(&mut self, alloc: Global, takes: &[TypeTree]) -> Result<(), NoMemory>
        ensures state { OnOk result (state_of self.new.draft ≡ at_part self.old.base (map plain_type takes.now) self.old.draft.count) }
        ensures done { OnOk result (done_of self.new.draft ≡ done_of self.old.draft) }
        ensures results { OnOk result (self.new.results ≡ self.old.results) }
        ensures base { OnOk result (self.new.base ≡ self.old.base + length takes.now) }
    {
        let base = sum(self.base, takes.len())?;
        let operands = parameters(alloc, self.base, takes)?;
        let types = copy_types(alloc, takes)?;
        self.draft.operands = operands;
        self.draft.operand_types = types;
        self.draft.made = Items::new(alloc);
        self.draft.made_types = Items::new(alloc);
        self.base = base;
        Ok(())
    }

    #[tactic(auto, using(crate::proofs::EntryLaws::given_same))]
    fn give_same(&mut self, value: Source) -> Result<(), NoMemory>
        ensures given { OnOk result ((next : ℕ → Option Template) (t : PlainType) (change : Option PlainType) → is_some change ≡ false → begun self.old (give_part change t value next self.old.draft.count) ≡ begun self.new (next self.new.draft.count)) }
        ensures base { OnOk result (self.new.base ≡ self.old.base) }
    {
        self.results.push(value)?;
        Ok(())
    }

    #[tactic(auto, using(crate::proofs::EntryLaws::given_cast))]
    fn give_changed(&mut self, alloc: Global, value: Source, t: &TypeTree) -> Result<(), NoMemory>
        ensures given { OnOk result ((next : ℕ → Option Template) (change : Option PlainType) → is_some change ≡ true → begun self.old (give_part change (plain_type t.now) value next self.old.draft.count) ≡ begun self.new (next self.new.draft.count)) }
        ensures base { OnOk result (self.new.base ≡ self.old.base) }
    {
        let Some(count) = self.draft.count.checked_add(1) else {
            return Err(AllocError);
        };
        let t = copy_type(alloc, t)?;
        let cast = cast_step(alloc, value, t)?;
        self.draft.steps.push(cast)?;
        self.results.push(Source::Made(self.draft.count))?;
        self.draft.count = count;
        Ok(())
    }

    /// An old argument is that value, with a cast behind where its type changes.
    fn give(
        &mut self,
        alloc: Global,
        bits: u32,
        converted: bool,
        value: Source,
        t: &TypeTree,
    ) -> Result<(), NoMemory>
        ensures given { OnOk result ((next : ℕ → Option Template) → begun self.old (give_part (change_of bits converted (plain_type t.now)) (plain_type t.now) value next self.old.draft.count) ≡ begun self.new (next self.new.draft.count)) }
        ensures base { OnOk result (self.new.base ≡ self.old.base) }
    {
        if type_changes(bits, converted, t) {
            self.give_changed(alloc, value, t)?;
            return Ok(());
        }
        self.give_same(value)?;
        Ok(())
    }
}

/// An old argument of that type is given by a part, where each product is legalised.
fn put_part<R: Rows>(
    alloc: Global,
    pass: &Pass<'_, R>,
    path: &[u32],
    converted: bool,
    t: &TypeTree,
    part: &PartTree,
    entry: &mut Entry,
) -> Result<bool, NoMemory>
    requires { InOrder pass.now.graph.now (target_of pass.now.target.now) (R.table pass.now.set.now) }
    ensures { IfOk result (λ good. (rest : ℕ → ℕ → Option Template) → begun entry.old (products (chosen pass.now.bits (target_of pass.now.target.now) (R.table pass.now.set.now) path.now) (λ s. give_part (change_of pass.now.bits converted (plain_type t.now)) (plain_type t.now) (result_first (map (here s) part.now.gives.results)) (rest (entry.old.base + length (map plain_type part.now.takes))) s.count) (map plain_step part.now.gives.steps) (at_part entry.old.base (map plain_type part.now.takes) entry.old.draft.count)) ≡ (if good then goes_on entry.new rest else None)) }
{
    entry.begin(alloc, part.takes.as_slice())?;
    let steps = part.gives.steps.as_slice();
    if !products_on(alloc, pass, path, steps, &mut entry.draft)? {
        return Ok(false);
    }
    let values = entry.draft.all_here(alloc, part.gives.results.as_slice())?;
    let value = first_result(values.as_slice());
    entry.give(alloc, pass.bits, converted, value, t)?;
    Ok(true)
}

/// Nothing yet.
fn start(alloc: Global) -> Entry
    ensures done { done_of result.draft ≡ [] }
    ensures count { result.draft.count ≡ 0 }
    ensures results { result.results ≡ [] }
    ensures base { result.base ≡ 0 }
{
    Entry {
        draft: Draft::new(alloc),
        results: Items::new(alloc),
        base: 0,
    }
}

/// All that is made.
fn finish(entry: Entry) -> TemplateTree
    ensures { plain_or_none (Some result) ≡ begun entry (Some (record { steps = []; results = [] })) }
{
    let Entry {
        draft,
        results,
        base: _,
    } = entry;
    let Draft {
        steps,
        operands: _,
        operand_types: _,
        made: _,
        made_types: _,
        count: _,
    } = draft;
    TemplateTree { steps, results }
}

/// The steps that give the old arguments, where each product is legalised by patterns that are not on the path.
pub fn entry_steps<R: Rows>(
    alloc: Global,
    pass: &Pass<'_, R>,
    path: &[u32],
    converted: bool,
    args: &[(u32, TypeTree)],
    parts: &[PartTree],
) -> Result<Option<TemplateTree>, NoMemory>
    requires { InOrder pass.now.graph.now (target_of pass.now.target.now) (R.table pass.now.set.now) }
    ensures { IfOk result (λ t. plain_or_none t ≡ entry_leaves (change_of pass.now.bits converted) (chosen pass.now.bits (target_of pass.now.target.now) (R.table pass.now.set.now) path.now) (map (λ v. plain_type v.1) args.now) 0 (map plain_part parts.now) 0) }
{
    let mut entry = start(alloc);
    'each: for (place, arg) in args.iter().enumerate() {
        let Some(part) = parts.get(place) else {
            return Ok(Some(finish(entry)));
        };
        if !put_part(alloc, pass, path, converted, &arg.1, part, &mut entry)? {
            return Ok(None);
        }
    }
    Ok(Some(finish(entry)))
}
