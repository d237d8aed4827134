//! The first operation of a function that breaks a test.

ghost use Rattle.std.specs.Prelude.{IfOk};
ghost use Rattle.plain_tree.specs.Ops.{plain_func};
ghost use Rattle.rule_facts.specs.Finding.{Stands};
ghost use Rattle.rule_facts.specs.Views.{all_declared};
ghost use Rattle.rule_tests.specs.Tests.{seen_from};
ghost use Rattle.function_tests.specs.Firsts.{TellsTests};

use crate::operation::Walk;
use crate::walk::first_in;
use rule_facts::Symbols;
use rule_model::Rule;
use std::alloc::Global;
use tree_model::{FuncTree, NoMemory, TypeTree};
use value_types::types_of;

/// The first operation of a function that breaks one of the rules that are tests, by its number in the order of the text, and the
/// first test that it breaks. So many functions stand in front of it in the module.
pub fn first_broken_test(
    alloc: Global,
    symbols: &Symbols<'_>,
    earlier: usize,
    func: &FuncTree,
) -> Result<Option<(usize, Rule)>, NoMemory>
    requires { Stands symbols.now.by_name (all_declared symbols.now.functions.now) }
    ensures { IfOk result (λ found. TellsTests (seen_from symbols.now earlier) (plain_func func.now) found) }
{
    let void = TypeTree::Void;
    let types = types_of(alloc, &func.op)?;
    let walk = Walk {
        types: &types,
        void: &void,
        symbols,
        earlier,
    };
    let mut count = 0;
    match first_in(alloc, &walk, &func.op, &mut count)? {
        Some(rule) => Ok(Some((count, rule))),
        None => Ok(None),
    }
}
