//! The first test that an operation of a tree breaks.
#![tactic(auto, using(crate::proofs::Heads::layers))]

ghost use Rattle.std.specs.Prelude.{◌≡◌, IfOk, map};
ghost use Rattle.std.specs.Option.{option_map};
ghost use Rattle.plain_tree.specs.Ops.{blocks_in, plain_op};
ghost use Rattle.plain_tree.specs.Types.{plain_type};
ghost use Rattle.value_types.specs.Trees.{plain_block};
ghost use Rattle.value_types.specs.Views.{plain_types};
ghost use Rattle.rule_facts.specs.Views.{heads_view, holder_view, regions_view};
ghost use Rattle.rule_tests.specs.Firsts.{all_tests, first_of};
ghost use Rattle.function_tests.specs.Heads.{heads_at, heads_in};
ghost use Rattle.function_tests.specs.Walks.{Ready, facts_at, seen_by, typed_by};
ghost use Rattle.tree_model.specs.declared.op_tree.OpTree.{out-OpTree};

use crate::gather::targets_of;
use rule_facts::{Facts, Head, Holder, Symbols};
use rule_model::Rule;
use rule_tests::first_test;
use std::alloc::Global;
use tree_model::{BlockTree, NoMemory, OpTree, TypeTree};
use value_types::ValueTypes;

/// What a walk over a function looks up: the types of its values, `void`, the functions of the module, and how many of these stand
/// in front of the function.
#[derive(Clone, Copy)]
pub struct Walk<'a> {
    pub types: &'a ValueTypes<'a>,
    pub void: &'a TypeTree,
    pub symbols: &'a Symbols<'a>,
    pub earlier: usize,
}

/// Where an operation stands: what holds its region, and the blocks of this with their heads.
#[derive(Clone, Copy)]
pub struct Around<'a> {
    pub holder: Option<Holder<'a>>,
    pub blocks: &'a [BlockTree],
    pub heads: &'a [Head<'a>],
}

/// The first test that an operation breaks, with these types of operands and results and these regions.
pub fn first_at(
    alloc: Global,
    walk: &Walk<'_>,
    around: &Around<'_>,
    last: bool,
    op: &OpTree,
    operands: &[&TypeTree],
    results: &[&TypeTree],
    regions: &[Vec<Head<'_>>],
) -> Result<Option<Rule>, NoMemory>
    requires ready { Ready walk.now }
    requires heads { heads_view around.now.heads.now ≡ heads_in around.now.blocks.now }
    requires operands { plain_types operands.now ≡ map (typed_by walk.now) (out-OpTree op.now).operands }
    requires results { plain_types results.now ≡ map (λ v. plain_type v.1) (out-OpTree op.now).results }
    requires regions { regions_view regions.now ≡ map heads_at (out-OpTree op.now).regions }
    ensures { IfOk result (λ r. r ≡ first_of (seen_by walk.now) (facts_at (typed_by walk.now) (option_map holder_view around.now.holder) (blocks_in (map plain_block around.now.blocks.now)) last (plain_op op.now)) all_tests) }
{
    let successors = targets_of(alloc, around.blocks, around.heads, op.successors.as_slice())?;
    let facts = Facts {
        name: &op.name,
        props: op.props.as_slice(),
        operands,
        results,
        successors: successors.as_slice(),
        regions,
        holder: around.holder,
        last,
    };
    Ok(first_test(alloc, walk.symbols, walk.earlier, &facts)?)
}
