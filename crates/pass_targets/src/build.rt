//! Targets from lists of names.

ghost use Rattle.std.specs.Prelude.{◌≡◌, ◌++◌, ℕ, List, IfOk, OnOk, not, true, [], ◌∷◌, map};
ghost use Rattle.std.specs.List.{list_all};
ghost use Rattle.conversion_model.specs.Targets.{Unknown};
ghost use Rattle.pattern_model.specs.OperationNames.{is_among};
ghost use Rattle.pattern_model.specs.PassTable.{partial_target, full_target};
ghost use Rattle.conversion_target.specs.Targets.{target_of};
ghost use Rattle.conversion_target.specs.declared.rule.LegalRule.TheVariants.{TypesOwn};
ghost use Rattle.row_code.specs.Infos.{texts};
ghost use Rattle.pass_targets.specs.Known.{others};

use crate::names;
use conversion_target::{LegalRule, Target};
use legal_graph::LegalNames;
use sqlite_items::Items;
use std::alloc::Global;
use tree_model::{Name, NameList, NoMemory};

fn has(names: &[&[u8]], name: &[u8]) -> bool
    ensures { result ≡ is_among (texts names.now) name.now }
{
    'each: for other in names {
        if *other == name {
            return true;
        }
    }
    false
}

fn names_of(alloc: Global, all: &[&[u8]]) -> Result<NameList, NoMemory>
    ensures { IfOk result (λ ns. ns ≡ texts all.now) }
{
    let mut names = Items::new(alloc);
    'each: for text in all {
        names.push(Name::from_slice(alloc, text)?)?;
    }
    Ok(names)
}

/// A name goes behind others, unless it is in one of two lists.
fn put_other(
    alloc: Global,
    illegal: &[&[u8]],
    dynamic: &[&[u8]],
    name: &[u8],
    out: &mut NameList,
) -> Result<(), NoMemory>
    ensures { OnOk result (out.new ≡ out.old ++ others (texts illegal.now) (texts dynamic.now) (name.now ∷ [])) }
{
    if has(illegal, name) || has(dynamic, name) {
        return Ok(());
    }
    out.push(Name::from_slice(alloc, name)?)
}

/// Those of these names that are in neither list.
fn other_names(
    alloc: Global,
    all: &[&[u8]],
    illegal: &[&[u8]],
    dynamic: &[&[u8]],
) -> Result<NameList, NoMemory>
    ensures { IfOk result (λ ns. ns ≡ others (texts illegal.now) (texts dynamic.now) (texts all.now)) }
{
    let mut names = Items::new(alloc);
    'each: for name in all {
        put_other(alloc, illegal, dynamic, name, &mut names)?;
    }
    Ok(names)
}

fn own_rule(_name: &[u8]) -> LegalRule
    ensures { result ≡ TypesOwn }
{
    LegalRule::TypesOwn
}

/// For each of these names the rule that the types of the operands are own.
fn own_rules(alloc: Global, names: &[&[u8]]) -> Result<Vec<LegalRule>, NoMemory>
    ensures { IfOk result (λ rs. rs.items ≡ map (λ n. TypesOwn) (texts names.now)) }
{
    let mut rules = Vec::new(alloc);
    'each: for name in names {
        rules.push(own_rule(name))?;
    }
    Ok(rules)
}

/// The target of a partial pass: of all known names those that are neither illegal nor dynamic are legal.
pub fn partial(alloc: Global, illegal: &[&[u8]], dynamic: &[&[u8]]) -> Result<Target, NoMemory>
    requires { list_all (λ d. not (is_among (texts illegal.now) d)) (texts dynamic.now) ≡ true }
    ensures { IfOk result (λ t. target_of t ≡ partial_target (texts illegal.now) (texts dynamic.now)) }
{
    let always = other_names(alloc, names::all(), illegal, dynamic)?;
    let rules = own_rules(alloc, dynamic)?;
    let dynamic = names_of(alloc, dynamic)?;
    let illegal = names_of(alloc, illegal)?;
    Ok(Target::new(LegalNames { always, dynamic }, rules, illegal))
}

/// The target of the full pass: names of llvm are legal, its branches by their operands' types.
pub fn full(alloc: Global) -> Result<Target, NoMemory>
    ensures { IfOk result (λ t. target_of t ≡ full_target) }
{
    let always = other_names(alloc, names::of_llvm(), &[], names::branches())?;
    let rules = own_rules(alloc, names::branches())?;
    let dynamic = names_of(alloc, names::branches())?;
    Ok(Target::new(LegalNames { always, dynamic }, rules, Items::new(alloc)))
}

/// The target that knows no name.
pub fn nothing(alloc: Global) -> Target
    ensures { target_of result ≡ (λ name. Unknown) }
{
    Target::new(
        LegalNames {
            always: Items::new(alloc),
            dynamic: Items::new(alloc),
        },
        Vec::new(alloc),
        Items::new(alloc),
    )
}
