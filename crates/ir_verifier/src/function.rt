//! The first rule that a function breaks.

ghost use Rattle.std.specs.Prelude.{◌≡◌, IfOk, true};
ghost use Rattle.plain_tree.specs.Ops.{plain_func};
ghost use Rattle.rule_facts.specs.Finding.{Stands};
ghost use Rattle.rule_facts.specs.Views.{all_declared};
ghost use Rattle.rule_tests.specs.Tests.{seen_from};
ghost use Rattle.first_places.specs.Numbering as model;
ghost use Rattle.ir_verifier.specs.Telling.{TellsFunction};

use crate::sooner::{at_place, sooner};
use function_tests::first_broken_test;
use own_uses::first_own_use;
use rule_facts::Symbols;
use rule_model::Rule;
use std::alloc::Global;
use tree_model::{FuncTree, NoMemory};
use use_paths::first_undefined;

/// The first operation of a function that breaks a rule, by its number, and the first rule that it breaks. So many functions stand in
/// front of it in the module.
pub fn first_broken(
    alloc: Global,
    symbols: &Symbols<'_>,
    earlier: usize,
    func: &FuncTree,
) -> Result<Option<(usize, Rule)>, NoMemory>
    requires stands { Stands symbols.now.by_name (all_declared symbols.now.functions.now) }
    requires numbered { model.is_numbered_once (plain_func func.now) ≡ true }
    ensures { IfOk result (λ found. TellsFunction (seen_from symbols.now earlier) (plain_func func.now) found) }
{
    let test = first_broken_test(alloc, symbols, earlier, func)?;
    let undefined = first_undefined(alloc, &func.op)?;
    let own = first_own_use(alloc, &func.op)?;
    let without_own = sooner(test, at_place(Rule::Defined, undefined));
    Ok(sooner(without_own, at_place(Rule::OwnUse, own)))
}
