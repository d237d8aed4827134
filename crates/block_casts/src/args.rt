//! The arguments of a block that isn't its region's first.
#![tactic(auto, using(crate::proofs::ChangedLaws::arg_laws))]

ghost use Rattle.std.specs.Prelude.{◌≡◌, ◌+◌, ◌∷◌, ◌++◌, [], ℕ, IfOk, OnOk, map, codes};
ghost use Rattle.std.specs.Option.{option_map};
ghost use Rattle.plain_tree.specs.Types.{plain_type};
ghost use Rattle.plain_tree.specs.Ops.{Ops, plain_op, plain_values};
ghost use Rattle.conversion_model.specs.Conversion as model;
ghost use Rattle.conversion_model.specs.Types.{new_type as type_after};
ghost use Rattle.new_numbers.specs.Tables.{Extends, numbering_of};
ghost use Rattle.block_casts.specs.Changed.{Said, cast_list, in_front};

use crate::makers::small_operation;
use new_numbers::{NewNumbers, ValuePlace};
use sqlite_items::Items;
use std::alloc::{AllocError, Global};
use tree_model::{Name, NoMemory, OpList, OpTree, TypeTree, ValueList, copy_type, one};
use type_table::new_type;

/// The arguments of a block, and the casts back to those whose type changed.
#[derive(Drop)]
pub struct BlockArgs {
    pub args: ValueList,
    pub casts: OpList,
}

// What a type becomes, none where it doesn't change.
fn changed(alloc: Global, bits: u32, t: &TypeTree) -> Result<Option<TypeTree>, NoMemory>
    ensures { IfOk result (λ o. option_map plain_type o ≡ type_after bits (plain_type t.now)) }
{
    let changed = new_type(alloc, bits, t)?;
    Ok(changed)
}

#[tactic(auto, unfolding(tree_model::specs::Known::known_text, tree_model::specs::Known::known))]
fn cast_name() -> Name
    ensures { result ≡ codes "builtin.unrealized_conversion_cast" }
{
    Name::known(1)
}

fn copied(alloc: Global, value: &(u32, TypeTree)) -> Result<(u32, TypeTree), NoMemory>
    ensures number { IfOk result (λ v. v.0 ≡ value.now.0) }
    ensures form { IfOk result (λ v. plain_type v.1 ≡ plain_type value.now.1) }
{
    let form = copy_type(alloc, &value.1)?;
    Ok((value.0, form))
}

// A cast to a value.
fn cast_op(alloc: Global, from: u32, to: &(u32, TypeTree)) -> Result<OpTree, NoMemory>
    ensures { IfOk result (λ o. plain_op o ≡ model.cast_op from (to.now.0, plain_type to.now.1)) }
{
    let value = copied(alloc, to)?;
    let results = one(alloc, value)?;
    let operands = one(alloc, from)?;
    Ok(small_operation(alloc, cast_name(), results, operands))
}

impl BlockArgs {
    fn keep(&mut self, alloc: Global, arg: &(u32, TypeTree)) -> Result<(), NoMemory>
        ensures args { OnOk result (plain_values self.new.args ≡ plain_values self.old.args ++ (arg.now.0, plain_type arg.now.1) ∷ []) }
        ensures casts { OnOk result (map plain_op self.new.casts ≡ map plain_op self.old.casts) }
    {
        let arg = copied(alloc, arg)?;
        self.args.push(arg)?;
        Ok(())
    }

    fn convert(
        &mut self,
        alloc: Global,
        number: u32,
        arg: &(u32, TypeTree),
        form: TypeTree,
    ) -> Result<(), NoMemory>
        ensures args { OnOk result (plain_values self.new.args ≡ plain_values self.old.args ++ (number, plain_type form) ∷ []) }
        ensures casts { OnOk result (map plain_op self.new.casts ≡ map plain_op self.old.casts ++ model.cast_op number (arg.now.0, plain_type arg.now.1) ∷ []) }
    {
        let cast = cast_op(alloc, number, arg)?;
        self.casts.push(cast)?;
        self.args.push((number, form))?;
        Ok(())
    }

    fn put(
        &mut self,
        alloc: Global,
        numbers: &mut NewNumbers,
        place: (u32, u32),
        arg: &(u32, TypeTree),
        form: Option<TypeTree>,
    ) -> Result<(), NoMemory>
        ensures extends { OnOk result (Extends (numbering_of numbers.old) (numbering_of numbers.new)) }
        ensures args { OnOk result (Said (numbering_of numbers.new) (λ n. plain_values self.new.args
            ≡ plain_values self.old.args ++ model.new_argument (n place.0 place.1) (arg.now.0, plain_type arg.now.1) (option_map plain_type form) ∷ [])) }
        ensures casts { OnOk result (Said (numbering_of numbers.new) (λ n. map plain_op self.new.casts
            ≡ map plain_op self.old.casts ++ cast_list (n place.0 place.1) (arg.now.0, plain_type arg.now.1) (option_map plain_type form))) }
    {
        match form {
            None => {
                self.keep(alloc, arg)?;
                Ok(())
            }
            Some(form) => {
                let number = numbers.value(ValuePlace::OfBlock(place.0, place.1))?;
                self.convert(alloc, number, arg, form)?;
                Ok(())
            }
        }
    }
}

fn after(index: u32) -> Result<u32, NoMemory>
    ensures { IfOk result (λ n. n ≡ index + 1) }
{
    match index.checked_add(1) {
        Some(next) => Ok(next),
        None => Err(AllocError),
    }
}

/// The arguments of a block in converted types.
pub(crate) fn converted(
    alloc: Global,
    bits: u32,
    numbers: &mut NewNumbers,
    label: u32,
    args: &[(u32, TypeTree)],
) -> Result<BlockArgs, NoMemory>
    ensures extends { OnOk result (Extends (numbering_of numbers.old) (numbering_of numbers.new)) }
    ensures args { IfOk result (λ c. Said (numbering_of numbers.new) (λ n. plain_values c.args ≡ model.new_arguments bits (n label) 0 (plain_values args.now))) }
    ensures casts { IfOk result (λ c. Said (numbering_of numbers.new) (λ n. (more : Ops) → in_front (map plain_op c.casts) more ≡ model.casts_back bits (n label) 0 (plain_values args.now) more)) }
{
    let mut all = BlockArgs {
        args: Items::new(alloc),
        casts: Items::new(alloc),
    };
    let mut index = 0;
    'each: for arg in args {
        let form = changed(alloc, bits, &arg.1)?;
        all.put(alloc, numbers, (label, index), arg, form)?;
        let next = after(index)?;
        index = next;
    }
    Ok(all)
}
