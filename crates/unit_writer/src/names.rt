//! The numbers of the values of a template.

ghost use Rattle.std.specs.Prelude.{◌≡◌, ◌∷◌, ℕ, IfOk, List, OnOk, nat_eq};
ghost use Rattle.std.specs.HashMap.{get};
ghost use Rattle.plain_tree.specs.Ops.{plain_values};
ghost use Rattle.conversion_model.specs.Templates.{named as named_value, numbers as numbers_of};
ghost use Rattle.conversion_model.specs.declared.templates.Source.{Source};
ghost use Rattle.new_numbers.specs.Tables.{Numbering, numbering_of, supply_of};
ghost use Rattle.unit_writer.specs.Names.{Asked, kept_as, name_by};

use conversion_model::Source;
use new_numbers::{NewNumbers, ValuePlace};
use std::alloc::Global;
use std::collections::HashMap;
use tree_model::{NoMemory, TypeTree};

/// Where the values of a template get their numbers: the number of the source operation and the place of the product, and the
/// values that results already name, by their places.
#[derive(Drop)]
pub struct Names {
    pub number: u32,
    pub piece: u32,
    pub kept: HashMap<u32, u32>,
}

// A result in front of those that are kept.
fn keep(kept: &mut HashMap<u32, u32>, source: Source, named: u32) -> Result<(), NoMemory>
    ensures { OnOk result ((rs : List ℕ) (ss : List Source) → ((n : ℕ) → get nat_eq kept.old n ≡ kept_as rs ss n) → (n : ℕ) → get nat_eq kept.new n ≡ kept_as (named ∷ rs) (source ∷ ss) n) }
{
    if let Source::Made(place) = source {
        kept.insert(place, named)?;
    }
    Ok(())
}

/// The values that results name: of two results that are one value the first.
fn kept_values(
    alloc: Global,
    results: &[(u32, TypeTree)],
    sources: &[Source],
) -> Result<HashMap<u32, u32>, NoMemory>
    ensures { IfOk result (λ kept. (n : ℕ) → get nat_eq kept n ≡ kept_as (numbers_of (plain_values results.now)) sources.now n) }
{
    let mut kept = HashMap::new(alloc);
    let mut index = results.len().min(sources.len());
    'each: while index > 0 {
        index -= 1;
        keep(&mut kept, sources[index], results[index].0)?;
    }
    Ok(kept)
}

impl Names {
    /// For a template with these results.
    pub fn of(
        alloc: Global,
        number: u32,
        piece: u32,
        results: &[(u32, TypeTree)],
        sources: &[Source],
    ) -> Result<Names, NoMemory>
        ensures { IfOk result (λ names. (u : Numbering) → name_by names u ≡ named_value ((supply_of u).value number piece) (numbers_of (plain_values results.now)) sources.now) }
    {
        let kept = kept_values(alloc, results, sources)?;
        Ok(Names {
            number,
            piece,
            kept,
        })
    }

    /// The number of the value at a place.
    pub fn name(&self, place: u32, numbers: &mut NewNumbers) -> Result<u32, NoMemory>
        ensures { IfOk result (λ n. Asked (numbering_of numbers.old) (numbering_of numbers.new) (λ u. name_by self.now u place ≡ n)) }
    {
        match self.kept.get(&place) {
            Some(number) => Ok(*number),
            None => Ok(numbers.value(ValuePlace::OfLine(self.number, self.piece, place))?),
        }
    }
}
