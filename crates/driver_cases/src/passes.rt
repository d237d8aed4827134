//! Samples as passes.

ghost use Rattle.std.specs.Prelude.{◌≡◌, IfOk, length};

use crate::rows::SampleRows;
use crate::samples::{Asks, Dynamic, Sample};
use choice_code::Pass;
use conversion_target::{LegalRule, Target};
use legal_graph::{Graph, LegalNames};
use row_code::Rows;
use sqlite_items::Items;
use std::alloc::Global;
use tree_model::{Name, NameList, NoMemory, OpTree};
use unit_choices::UnlegalisedTree;
use unit_conversion::convert;
use unit_views::Mode;

/// How many bits an index has.
const BITS: u32 = 64;

fn names(alloc: Global, texts: &[&[u8]]) -> Result<NameList, NoMemory> {
    let mut all = Items::new(alloc);
    for text in texts {
        all.push(Name::from_slice(alloc, text)?)?;
    }
    Ok(all)
}

fn dynamic_names(alloc: Global, all: &[Dynamic]) -> Result<NameList, NoMemory>
    ensures { IfOk result (λ ns. length ns ≡ length all.now) }
{
    let mut names = Items::new(alloc);
    'each: for dynamic in all {
        names.push(Name::from_slice(alloc, dynamic.name)?)?;
    }
    Ok(names)
}

fn rule(alloc: Global, asks: Asks) -> Result<LegalRule, NoMemory> {
    match asks {
        Asks::Own => Ok(LegalRule::TypesOwn),
        Asks::Has(name) => Ok(LegalRule::HasAttr(Name::from_slice(alloc, name)?)),
    }
}

fn rules(alloc: Global, all: &[Dynamic]) -> Result<Vec<LegalRule>, NoMemory>
    ensures { IfOk result (λ v. length v.items ≡ length all.now) }
{
    let mut rules = Vec::new(alloc);
    'each: for dynamic in all {
        rules.push(rule(alloc, dynamic.asks)?)?;
    }
    Ok(rules)
}

/// The target of a sample.
fn target(alloc: Global, sample: &Sample) -> Result<Target, NoMemory> {
    let always = names(alloc, sample.legal)?;
    let dynamic = dynamic_names(alloc, sample.dynamic)?;
    let rules = rules(alloc, sample.dynamic)?;
    let illegal = names(alloc, sample.illegal)?;
    let names = LegalNames { always, dynamic };
    Ok(Target::new(names, rules, illegal))
}

/// The graph of legality of a sample.
pub fn sample_graph(alloc: Global, sample: &Sample) -> Result<Graph, NoMemory> {
    let rows = SampleRows::new(alloc, sample.entries)?;
    let target = target(alloc, sample)?;
    target.graph(alloc, rows.infos())
}

/// What a sample makes of a function.
pub fn converted(
    alloc: Global,
    sample: &Sample,
    mode: Mode,
    blocks: bool,
    f: &OpTree,
) -> Result<Result<OpTree, UnlegalisedTree>, NoMemory> {
    let rows = SampleRows::new(alloc, sample.entries)?;
    let target = target(alloc, sample)?;
    let graph = target.graph(alloc, rows.infos())?;
    let pass = Pass {
        set: &rows,
        target: &target,
        graph: &graph,
        bits: BITS,
    };
    convert(alloc, &pass, mode, blocks, f)
}
