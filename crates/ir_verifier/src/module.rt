//! The first rule that a module breaks.
#![tactic(auto, using(crate::proofs::Front::layers))]

ghost use Rattle.std.specs.Prelude.{◌≡◌, IfOk, map, true};
ghost use Rattle.std.specs.List.{list_all};
ghost use Rattle.plain_tree.specs.Ops.{plain_func, plain_module};
ghost use Rattle.rule_model.specs.Facts as facts;
ghost use Rattle.rule_facts.specs.Finding.{Stands};
ghost use Rattle.rule_facts.specs.Views.{all_declared};
ghost use Rattle.first_places.specs.Numbering as model;
ghost use Rattle.ir_verifier.specs.Telling.{Tells, TellsFunctions};

use crate::broken::BrokenRule;
use crate::function::first_broken;
use crate::numbering::is_numbered_once;
use rule_facts::{Declared, Symbols, symbols_of};
use std::alloc::Global;
use tree_model::{FuncTree, ModuleTree, NoMemory};

/// What functions are to one another.
fn declarations<'a>(alloc: Global, funcs: &'a [FuncTree]) -> Result<Vec<Declared<'a>>, NoMemory>
    ensures { IfOk result (λ ds. all_declared ds.items ≡ map facts.declared (map plain_func funcs.now)) }
{
    let mut all = Vec::with_capacity(alloc, funcs.len())?;
    for func in funcs {
        all.push(Declared {
            kind: &func.op.name,
            props: func.op.props.as_slice(),
        })?;
    }
    Ok(all)
}

fn are_numbered_once(alloc: Global, funcs: &[FuncTree]) -> Result<bool, NoMemory>
    ensures { IfOk result (λ b. b ≡ list_all model.is_numbered_once (map plain_func funcs.now)) }
{
    for func in funcs {
        if !is_numbered_once(alloc, &func.op)? {
            return Ok(false);
        }
    }
    Ok(true)
}

fn first_in(
    alloc: Global,
    symbols: &Symbols<'_>,
    funcs: &[FuncTree],
) -> Result<Option<BrokenRule>, NoMemory>
    requires stands { Stands symbols.now.by_name (all_declared symbols.now.functions.now) }
    requires same { all_declared symbols.now.functions.now ≡ map facts.declared (map plain_func funcs.now) }
    requires numbered { list_all model.is_numbered_once (map plain_func funcs.now) ≡ true }
    ensures { IfOk result (λ b. TellsFunctions (map plain_func funcs.now) b) }
{
    for (place, func) in funcs.iter().enumerate() {
        match first_broken(alloc, symbols, place, func)? {
            Some(found) => {
                return Ok(Some(BrokenRule {
                    function: place,
                    operation: found.0,
                    rule: found.1,
                }));
            }
            None => {}
        }
    }
    Ok(None)
}

/// The first rule that a module breaks: in the first function in which one is broken, at the first operation of it that breaks one, the
/// first rule that this operation breaks. None where each rule is kept.
///
/// A module of which a function defines a number of a value twice, or has a label twice, isn't judged: the answer is none. A module that
/// is formed has no such function.
pub fn verify(alloc: Global, tree: &ModuleTree) -> Result<Option<BrokenRule>, NoMemory>
    ensures { IfOk result (λ b. Tells (plain_module tree.now) b) }
{
    let funcs = tree.funcs.as_slice();
    if !are_numbered_once(alloc, funcs)? {
        return Ok(None);
    }
    let declared = declarations(alloc, funcs)?;
    let symbols = symbols_of(alloc, declared.as_slice())?;
    first_in(alloc, &symbols, funcs)
}
