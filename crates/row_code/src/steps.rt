//! Templates as tables of lines: what a row of fixed operations is in code.

ghost use Rattle.std.specs.Prelude.{◌≡◌, IfOk, map};
ghost use Rattle.plain_tree.specs.Types.{plain_type, type_tree};
ghost use Rattle.plain_tree.specs.Attrs.{plain_entries};
ghost use Rattle.conversion_model.specs.Templates.{step_tree, template_tree};
ghost use Rattle.row_code.specs.Lines.{lines_template, made_of, one_step, props_of, step_of};

use crate::props::{constant_value, predicate};
use conversion_model::{Source, SourceList, StepList, StepTree, TemplateTree};
use sqlite_items::Items;
use std::alloc::{AllocError, Global};
use tree_model::{DictTree, Name, NoMemory, TypeTree, copy_type, one};

/// The property of a line: none, the number of a predicate, or a constant of the row's type.
#[derive(Clone, Copy, Debug)]
pub enum Props {
    Nothing,
    Predicate(u32),
    Constant(u32),
}

/// What a line makes: a value of the row's type, or a bit.
#[derive(Clone, Copy, Debug)]
pub enum Makes {
    Same,
    Bit,
}

/// An operation of a row. The values of the lines are counted through from 0 on.
#[derive(Clone, Copy, Debug)]
pub struct Line {
    pub name: &'static [u8],
    pub sources: &'static [Source],
    pub props: Props,
    pub makes: Makes,
}

fn line_props(alloc: Global, props: Props, t: &TypeTree) -> Result<DictTree, NoMemory>
    ensures { IfOk result (λ d. plain_entries d ≡ props_of props (plain_type t.now)) }
{
    match props {
        Props::Nothing => Ok(Items::new(alloc)),
        Props::Predicate(number) => predicate(alloc, number),
        Props::Constant(number) => {
            let t = copy_type(alloc, t)?;
            constant_value(alloc, t, i64::from(number))
        }
    }
}

#[tactic(auto, using(crate::proofs::Opens::trips))]
fn line_type(alloc: Global, makes: Makes, t: &TypeTree) -> Result<TypeTree, NoMemory>
    ensures { IfOk result (λ u. u ≡ type_tree (made_of makes (plain_type t.now))) }
{
    match makes {
        Makes::Same => copy_type(alloc, t),
        Makes::Bit => Ok(TypeTree::Int(1)),
    }
}

#[tactic(auto, using(crate::proofs::Opens::trips))]
/// An operation without successors that makes one value of that type.
pub fn one_value(
    alloc: Global,
    name: &[u8],
    sources: &[Source],
    props: DictTree,
    t: TypeTree,
) -> Result<StepTree, NoMemory>
    ensures { IfOk result (λ s. s ≡ step_tree (one_step name.now sources.now (plain_entries props) (plain_type t))) }
{
    let name = Name::from_slice(alloc, name)?;
    let sources = Items::from_slice(alloc, sources)?;
    let makes = one(alloc, t)?;
    Ok(StepTree {
        name,
        props,
        sources,
        successors: Items::new(alloc),
        makes,
    })
}

#[tactic(auto, using(crate::proofs::Opens::trips))]
fn line_step(alloc: Global, line: &Line, t: &TypeTree) -> Result<StepTree, NoMemory>
    ensures { IfOk result (λ s. s ≡ step_tree (step_of (plain_type t.now) line.now)) }
{
    let props = line_props(alloc, line.props, t)?;
    let made = line_type(alloc, line.makes, t)?;
    let step = one_value(alloc, line.name, line.sources, props, made)?;
    Ok(step)
}

fn all_steps(alloc: Global, lines: &[Line], t: &TypeTree) -> Result<StepList, NoMemory>
    ensures { IfOk result (λ ss. ss ≡ map step_tree (map (step_of (plain_type t.now)) lines.now)) }
{
    let mut steps = Items::new(alloc);
    'each: for line in lines {
        steps.push(line_step(alloc, line, t)?)?;
    }
    Ok(steps)
}

/// The template of lines, whose one result is the value of the last line.
pub fn drafted(alloc: Global, lines: &[Line], t: &TypeTree) -> Result<TemplateTree, NoMemory>
    ensures { IfOk result (λ u. u ≡ template_tree (lines_template lines.now (plain_type t.now))) }
{
    let Ok(count) = u32::try_from(lines.len()) else {
        return Err(AllocError);
    };
    let steps = all_steps(alloc, lines, t)?;
    let results = one(alloc, Source::Made(count.saturating_sub(1)))?;
    Ok(TemplateTree { steps, results })
}
