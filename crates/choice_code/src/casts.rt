//! Casts in front of the products.

ghost use Rattle.std.specs.Prelude.{◌≡◌, ◌++◌, Some, None, IfOk, OnOk, [], ◌∷◌, is_some, map, option_map};
ghost use Rattle.plain_tree.specs.Types.{PlainType, plain_type};
ghost use Rattle.conversion_model.specs.Chosen.{Ending, cast as cast_of, change_of, take_one as one_taken, take_operands as all_taken, with_operand};
ghost use Rattle.choice_code.specs.Drafts.{behind, done_of, going_on, state_of};
ghost use Rattle.choice_code.specs.Plain.{plain_step};
ghost use Rattle.conversion_model.specs.declared.templates.Source.TheVariants.{Operand};

use crate::draft::Draft;
use conversion_model::{Source, StepTree};
use sqlite_items::Items;
use std::alloc::{AllocError, Global};
use tree_model::{Name, NoMemory, TypeTree, copy_type, one};
use type_table::new_type;

/// What a type becomes where it changes for a pattern: a pattern that isn't for converted types takes all as they are.
fn changed_type(
    alloc: Global,
    bits: u32,
    converted: bool,
    t: &TypeTree,
) -> Result<Option<TypeTree>, NoMemory>
    ensures { IfOk result (λ o. option_map plain_type o ≡ change_of bits converted (plain_type t.now)) }
{
    if converted {
        let changed = new_type(alloc, bits, t)?;
        return Ok(changed);
    }
    Ok(None)
}

/// A cast of that value to that type.
pub fn cast_step(alloc: Global, value: Source, t: TypeTree) -> Result<StepTree, NoMemory>
    ensures { IfOk result (λ s. plain_step s ≡ cast_of value (plain_type t)) }
{
    let name = Name::from_slice(alloc, b"builtin.unrealized_conversion_cast")?;
    let sources = one(alloc, value)?;
    let makes = one(alloc, t)?;
    Ok(StepTree {
        name,
        props: Items::new(alloc),
        sources,
        successors: Items::new(alloc),
        makes,
    })
}

/// Whether a type changes for a pattern.
#[tactic(auto, using(row_code::proofs::Opens::type_opens))]
pub fn type_changes(bits: u32, converted: bool, t: &TypeTree) -> bool
    ensures { result ≡ is_some (change_of bits converted (plain_type t.now)) }
{
    let _bits = bits;
    match t {
        TypeTree::Index => converted,
        TypeTree::Memref(_, _) => converted,
        TypeTree::Int(_)
        | TypeTree::Func(_, _)
        | TypeTree::Ptr
        | TypeTree::Void
        | TypeTree::Struct(_)
        | TypeTree::Array(_, _)
        | TypeTree::LlvmFunc(_, _) => false,
    }
}

impl Draft {
    fn add_operand(&mut self, source: Source, t: TypeTree, more: u32) -> Result<(), NoMemory>
        ensures state { OnOk result (state_of self.new ≡ with_operand source (plain_type t) more (state_of self.old)) }
        ensures done { done_of self.new ≡ done_of self.old }
    {
        let Some(count) = self.count.checked_add(more) else {
            return Err(AllocError);
        };
        self.operands.push(source)?;
        self.operand_types.push(t)?;
        self.count = count;
        Ok(())
    }

    #[tactic(auto, using(crate::proofs::DraftLaws::stayed))]
    fn take_same(&mut self, alloc: Global, place: u32, t: &TypeTree) -> Result<(), NoMemory>
        ensures { OnOk result ((next : Ending) → behind (done_of self.old) (one_taken None place (plain_type t.now) next (state_of self.old)) ≡ going_on self.new next) }
    {
        let same = copy_type(alloc, t)?;
        self.add_operand(Source::Operand(place), same, 0)?;
        Ok(())
    }

    fn put_cast(&mut self, alloc: Global, place: u32, t: &TypeTree) -> Result<(), NoMemory>
        ensures done { OnOk result (done_of self.new ≡ done_of self.old ++ cast_of (Operand place) (plain_type t.now) ∷ []) }
        ensures state { state_of self.new ≡ state_of self.old }
    {
        let t = copy_type(alloc, t)?;
        let cast = cast_step(alloc, Source::Operand(place), t)?;
        self.steps.push(cast)
    }

    #[tactic(auto, using(crate::proofs::DraftLaws::taken))]
    fn take_changed(&mut self, alloc: Global, place: u32, t: TypeTree) -> Result<(), NoMemory>
        ensures { OnOk result ((next : Ending) (was : PlainType) → behind (done_of self.old) (one_taken (Some (plain_type t)) place was next (state_of self.old)) ≡ going_on self.new next) }
    {
        self.put_cast(alloc, place, &t)?;
        let made = Source::Made(self.count);
        self.add_operand(made, t, 1)?;
        Ok(())
    }

    /// An operand, with a cast in front where its type changes.
    fn take_one(
        &mut self,
        alloc: Global,
        bits: u32,
        converted: bool,
        place: u32,
        t: &TypeTree,
    ) -> Result<(), NoMemory>
        ensures { OnOk result ((next : Ending) → behind (done_of self.old) (one_taken (change_of bits converted (plain_type t.now)) place (plain_type t.now) next (state_of self.old)) ≡ going_on self.new next) }
    {
        match changed_type(alloc, bits, converted, t)? {
            None => {
                self.take_same(alloc, place, t)?;
                Ok(())
            }
            Some(changed) => {
                self.take_changed(alloc, place, changed)?;
                Ok(())
            }
        }
    }

    fn take_at(
        &mut self,
        alloc: Global,
        bits: u32,
        converted: bool,
        place: usize,
        t: &TypeTree,
    ) -> Result<(), NoMemory>
        ensures { OnOk result ((next : Ending) → behind (done_of self.old) (one_taken (change_of bits converted (plain_type t.now)) place (plain_type t.now) next (state_of self.old)) ≡ going_on self.new next) }
    {
        match u32::try_from(place) {
            Ok(place) => self.take_one(alloc, bits, converted, place, t),
            Err(_) => Err(AllocError),
        }
    }

    /// Each operand in order.
    pub fn take_operands(
        &mut self,
        alloc: Global,
        bits: u32,
        converted: bool,
        types: &[TypeTree],
    ) -> Result<(), NoMemory>
        ensures { OnOk result ((next : Ending) → behind (done_of self.old) (all_taken (change_of bits converted) next 0 (map plain_type types.now) (state_of self.old)) ≡ going_on self.new next) }
    {
        'each: for (place, t) in types.iter().enumerate() {
            self.take_at(alloc, bits, converted, place, t)?;
        }
        Ok(())
    }
}
