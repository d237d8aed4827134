//! What stands so far of a derivation.

ghost use Rattle.std.specs.Prelude.{◌≡◌, IfOk, [], get_or, map};
ghost use Rattle.plain_tree.specs.Types.{plain_type, Void};
ghost use Rattle.conversion_model.specs.Chosen.{here as source_here, nothing_yet, product as product_shape, type_here as type_at};
ghost use Rattle.choice_code.specs.Plain.{plain_step};
ghost use Rattle.choice_code.specs.Drafts.{state_of};
ghost use Rattle.row_code.specs.Shapes.{shape_of};

use conversion_model::{Source, SourceList, StepList, StepTree};
use row_code::ShapeTree;
use sqlite_items::{Items, at};
use std::alloc::{AllocError, Global};
use tree_model::{NoMemory, TypeList, TypeTree, copy_dict, copy_type};

/// The operations so far, where the operands of products are found and their types, the same of the values that products
/// made, and how many values there are.
#[derive(Drop)]
pub struct Draft {
    pub steps: StepList,
    pub operands: SourceList,
    pub operand_types: TypeList,
    pub made: SourceList,
    pub made_types: TypeList,
    pub count: u32,
}

impl Draft {
    /// Nothing yet.
    pub fn new(alloc: Global) -> Draft
        ensures steps { result.steps ≡ [] }
        ensures state { state_of result ≡ nothing_yet }
    {
        Draft {
            steps: Items::new(alloc),
            operands: Items::new(alloc),
            operand_types: Items::new(alloc),
            made: Items::new(alloc),
            made_types: Items::new(alloc),
            count: 0,
        }
    }

    /// What a source of a product is in the whole template.
    pub fn here(&self, source: Source) -> Source
        ensures { result ≡ source_here (state_of self.now) source }
    {
        match source {
            Source::Operand(place) => found_or(self.operands.as_slice(), place, source),
            Source::Made(place) => found_or(self.made.as_slice(), place, source),
        }
    }

    /// What sources of a product are.
    pub fn all_here(&self, alloc: Global, sources: &[Source]) -> Result<SourceList, NoMemory>
        ensures { IfOk result (λ ss. ss ≡ map (source_here (state_of self.now)) sources.now) }
    {
        let mut found = Items::new(alloc);
        'each: for source in sources {
            found.push(self.here(*source))?;
        }
        Ok(found)
    }

    fn type_here(&self, alloc: Global, source: Source) -> Result<TypeTree, NoMemory>
        ensures { IfOk result (λ t. plain_type t ≡ type_at (state_of self.now) source) }
    {
        match source {
            Source::Operand(place) => type_or_void(alloc, self.operand_types.as_slice(), place),
            Source::Made(place) => type_or_void(alloc, self.made_types.as_slice(), place),
        }
    }

    fn types_here(&self, alloc: Global, sources: &[Source]) -> Result<TypeList, NoMemory>
        ensures { IfOk result (λ ts. map plain_type ts ≡ map (type_at (state_of self.now)) sources.now) }
    {
        let mut types = Items::new(alloc);
        'each: for source in sources {
            types.push(self.type_here(alloc, *source)?)?;
        }
        Ok(types)
    }

    /// The shape of a product.
    pub fn product(&self, alloc: Global, step: &StepTree) -> Result<ShapeTree, NoMemory>
        ensures { IfOk result (λ s. shape_of s ≡ product_shape (state_of self.now) (plain_step step.now)) }
    {
        let Ok(successors) = u32::try_from(step.successors.len()) else {
            return Err(AllocError);
        };
        let name = step.name.copy(alloc)?;
        let operands = self.types_here(alloc, step.sources.as_slice())?;
        let results = copy_types(alloc, step.makes.as_slice())?;
        let props = copy_dict(alloc, step.props.as_slice())?;
        Ok(ShapeTree {
            name,
            operands,
            results,
            props,
            attrs: Items::new(alloc),
            successors,
            regions: 0,
        })
    }
}

/// The source at a place, or the other one where there is no such place.
pub fn found_or(sources: &[Source], place: u32, other: Source) -> Source
    ensures { result ≡ get_or sources.now place other }
{
    match sources.get(place as usize) {
        Some(found) => *found,
        None => other,
    }
}

#[tactic(auto, using(crate::proofs::DraftLaws::type_some, crate::proofs::DraftLaws::type_none))]
fn type_or_void(alloc: Global, types: &[TypeTree], place: u32) -> Result<TypeTree, NoMemory>
    ensures { IfOk result (λ t. plain_type t ≡ get_or (map plain_type types.now) place Void) }
{
    match at(types, place as usize) {
        Some(t) => {
            let t = copy_type(alloc, t)?;
            Ok(t)
        }
        None => Ok(TypeTree::Void),
    }
}

/// Copies of types.
pub fn copy_types(alloc: Global, types: &[TypeTree]) -> Result<TypeList, NoMemory>
    ensures { IfOk result (λ ts. ts ≡ types.now) }
{
    let mut copies = Items::new(alloc);
    'each: for t in types {
        copies.push(copy_type(alloc, t)?)?;
    }
    Ok(copies)
}
