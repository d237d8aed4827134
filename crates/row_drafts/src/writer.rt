//! What stands so far of a template.

ghost use Rattle.std.specs.Prelude.{◌≡◌, IfOk, OnOk, []};
ghost use Rattle.plain_tree.specs.Types.{plain_type};
ghost use Rattle.plain_tree.specs.Attrs.{plain_entries};
ghost use Rattle.conversion_model.specs.Templates.{step_tree, template_tree};
ghost use Rattle.pattern_model.specs.Drafts.{Draft, effect as effect_part, gives, value as value_part};
ghost use Rattle.row_drafts.specs.Writes.{behind, effect_step, Writes, WritesOn};

use conversion_model::{Source, SourceList, StepList, StepTree, TemplateTree};
use row_code::one_value;
use sqlite_items::Items;
use std::alloc::{AllocError, Global};
use tree_model::{DictTree, Name, NoMemory, TypeTree};

/// The operations so far, and how many values they make.
#[derive(Drop)]
pub struct Writer {
    steps: StepList,
    made: u32,
}

#[tactic(auto, using(row_code::proofs::Opens::trips))]
fn no_value(
    alloc: Global,
    name: &[u8],
    sources: &[Source],
    props: DictTree,
) -> Result<StepTree, NoMemory>
    ensures { IfOk result (λ s. s ≡ step_tree (effect_step name.now sources.now (plain_entries props))) }
{
    let name = Name::from_slice(alloc, name)?;
    let sources = Items::from_slice(alloc, sources)?;
    Ok(StepTree {
        name,
        props,
        sources,
        successors: Items::new(alloc),
        makes: Items::new(alloc),
    })
}

impl Writer {
    /// Nothing yet.
    pub fn new(alloc: Global) -> Writer
        ensures { (d : Draft) → behind result d ≡ template_tree (d 0) }
    {
        Writer {
            steps: Items::new(alloc),
            made: 0,
        }
    }

    /// An operation that makes one value of that type.
    pub fn value(
        &mut self,
        alloc: Global,
        name: &[u8],
        sources: &[Source],
        props: DictTree,
        t: TypeTree,
    ) -> Result<Source, NoMemory>
        ensures { IfOk result (λ s. Writes self.old self.new (value_part name.now sources.now (plain_entries props) (plain_type t)) s) }
    {
        let Some(made) = self.made.checked_add(1) else {
            return Err(AllocError);
        };
        let step = one_value(alloc, name, sources, props, t)?;
        self.steps.push(step)?;
        let source = Source::Made(self.made);
        self.made = made;
        Ok(source)
    }

    /// An operation that makes no value.
    pub fn effect(
        &mut self,
        alloc: Global,
        name: &[u8],
        sources: &[Source],
        props: DictTree,
    ) -> Result<(), NoMemory>
        ensures { OnOk result (WritesOn self.old self.new (effect_part name.now sources.now (plain_entries props) [])) }
    {
        let step = no_value(alloc, name, sources, props)?;
        self.steps.push(step)?;
        Ok(())
    }

    /// The whole template, with what the results stand for.
    pub fn finish(self, results: SourceList) -> TemplateTree
        ensures { result ≡ behind self (gives results) }
    {
        TemplateTree {
            steps: self.steps,
            results,
        }
    }
}
