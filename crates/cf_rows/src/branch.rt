//! The rows of branches.

ghost use Rattle.std.specs.Prelude.{◌≡◌, List, IfOk, OnOk, Some, [], ◌∷◌, ◌++◌, not};
ghost use Rattle.plain_tree.specs.Attrs.{plain_entries};
ghost use Rattle.conversion_model.specs.declared.templates.Source.TheVariants.{Operand};
ghost use Rattle.pattern_model.specs.CfRows.{br_row, cond_br_row, conditional, has_other_type as other_type, is_branch as is_branching, llvm_br_row, llvm_cond_br_row};
ghost use Rattle.row_code.specs.Shapes.{shape_of, tree_or_none};
ghost use Rattle.cf_rows.specs.Branches.{branch_to, operands_from};

use conversion_model::{Source, SourceList, StepTree, TemplateTree};
use conversion_target::{LegalRule, holds};
use row_code::{ShapeTree, find, kept_props};
use sqlite_items::Items;
use std::alloc::{AllocError, Global};
use tree_model::{DictTree, Name, NoMemory, TypeTree, one};

/// Whether an operation is a branch to so many successors.
fn is_branch(count: u32, shape: &ShapeTree) -> bool
    ensures { result ≡ is_branching count (shape_of shape.now) }
{
    shape.results.len() == 0 && shape.successors == count && shape.regions == 0
}

fn has_other_type(shape: &ShapeTree) -> bool
    ensures { result ≡ other_type (shape_of shape.now) }
{
    !holds(&LegalRule::TypesOwn, shape)
}

fn push_operand(sources: &mut SourceList, place: usize) -> Result<(), NoMemory>
    ensures { OnOk result (sources.new ≡ sources.old ++ Operand place ∷ []) }
{
    match u32::try_from(place) {
        Ok(number) => sources.push(Source::Operand(number)),
        Err(_) => Err(AllocError),
    }
}

/// All operands in order.
fn all_operands(alloc: Global, types: &[TypeTree]) -> Result<SourceList, NoMemory>
    ensures { IfOk result (λ ss. ss ≡ operands_from 0 types.now) }
{
    let mut sources = Items::new(alloc);
    'each: for place in 0..types.len() {
        push_operand(&mut sources, place)?;
    }
    Ok(sources)
}

/// One branch with all operands.
#[tactic(auto, using(row_code::proofs::Opens::trips))]
fn branch(
    alloc: Global,
    name: &[u8],
    props: DictTree,
    successors: &[u32],
    types: &[TypeTree],
) -> Result<TemplateTree, NoMemory>
    ensures { IfOk result (λ t. t ≡ branch_to name.now props successors.now types.now) }
{
    let name = Name::from_slice(alloc, name)?;
    let sources = all_operands(alloc, types)?;
    let successors = Items::from_slice(alloc, successors)?;
    let step = StepTree {
        name,
        props,
        sources,
        successors,
        makes: Items::new(alloc),
    };
    let steps = one(alloc, step)?;
    Ok(TemplateTree {
        steps,
        results: Items::new(alloc),
    })
}

#[tactic(auto, using(crate::proofs::BranchLaws::plain_branch))]
pub fn br(alloc: Global, bits: u32, shape: &ShapeTree) -> Result<Option<TemplateTree>, NoMemory>
    ensures { IfOk result (λ t. t ≡ tree_or_none (br_row bits (shape_of shape.now))) }
{
    if !is_branch(1, shape) {
        return Ok(None);
    }
    let template = branch(
        alloc,
        b"llvm.br",
        Items::new(alloc),
        &[0],
        shape.operands.as_slice(),
    )?;
    Ok(Some(template))
}

#[tactic(auto, using(crate::proofs::BranchLaws::conditional_branch))]
pub fn cond_br(
    alloc: Global,
    bits: u32,
    shape: &ShapeTree,
) -> Result<Option<TemplateTree>, NoMemory>
    ensures { IfOk result (λ t. t ≡ tree_or_none (cond_br_row bits (shape_of shape.now))) }
{
    if !is_branch(2, shape) {
        return Ok(None);
    }
    let sizes = find(b"operandSegmentSizes", shape.props.as_slice());
    let Some(props) = kept_props(alloc, b"operandSegmentSizes", sizes)? else {
        return Ok(None);
    };
    let template = branch(
        alloc,
        b"llvm.cond_br",
        props,
        &[0, 1],
        shape.operands.as_slice(),
    )?;
    Ok(Some(template))
}

/// Where an operand's type isn't own.
pub fn llvm_br(
    alloc: Global,
    bits: u32,
    shape: &ShapeTree,
) -> Result<Option<TemplateTree>, NoMemory>
    ensures { IfOk result (λ t. t ≡ tree_or_none (llvm_br_row bits (shape_of shape.now))) }
{
    if !has_other_type(shape) {
        return Ok(None);
    }
    br(alloc, bits, shape)
}

/// Where an operand's type isn't own.
pub fn llvm_cond_br(
    alloc: Global,
    bits: u32,
    shape: &ShapeTree,
) -> Result<Option<TemplateTree>, NoMemory>
    ensures { IfOk result (λ t. t ≡ tree_or_none (llvm_cond_br_row bits (shape_of shape.now))) }
{
    if !has_other_type(shape) {
        return Ok(None);
    }
    cond_br(alloc, bits, shape)
}
