//! The first of the rules that are tests which an operation breaks.

ghost use Rattle.std.specs.Prelude.{◌≡◌, IfOk, Some, None};
ghost use Rattle.rule_facts.specs.Finding.{Stands};
ghost use Rattle.rule_facts.specs.Views.{all_declared, facts_view};
ghost use Rattle.rule_tests.specs.Tests.{seen_from};
ghost use Rattle.rule_tests.specs.Firsts as firsts;

use crate::control::terminators_fit;
use crate::functions::{names_fit, signatures_fit, symbols_fit, values_fit};
use crate::successors::successors_fit;
use attribute_tests::attributes_fit;
use operand_tests::{operands_fit, regions_fit, results_fit};
use rule_facts::{Facts, Symbols, shape_of};
use rule_model::{Rule, Shape};
use std::alloc::Global;
use tree_model::NoMemory;

fn of_shape(alloc: Global, facts: &Facts<'_>, shape: Shape) -> Result<Option<Rule>, NoMemory>
    ensures { IfOk result (λ r. r ≡ firsts.of_shape (facts_view facts.now) shape) }
{
    if !operands_fit(facts, shape) {
        return Ok(Some(Rule::Operands));
    }
    if !results_fit(facts, shape) {
        return Ok(Some(Rule::Results));
    }
    if !regions_fit(alloc, facts, shape)? {
        return Ok(Some(Rule::Regions));
    }
    if !attributes_fit(alloc, facts, shape)? {
        return Ok(Some(Rule::Attribute));
    }
    Ok(None)
}

fn of_control(facts: &Facts<'_>, shape: Option<Shape>) -> Option<Rule>
    ensures { result ≡ firsts.of_control (facts_view facts.now) shape }
{
    if !successors_fit(facts, shape) {
        return Some(Rule::Successors);
    }
    if !terminators_fit(facts, shape) {
        return Some(Rule::Terminator);
    }
    None
}

fn of_functions(
    alloc: Global,
    symbols: &Symbols<'_>,
    earlier: usize,
    facts: &Facts<'_>,
    shape: Shape,
) -> Result<Option<Rule>, NoMemory>
    requires { Stands symbols.now.by_name (all_declared symbols.now.functions.now) }
    ensures { IfOk result (λ r. r ≡ firsts.of_functions (seen_from symbols.now earlier) (facts_view facts.now) shape) }
{
    if !signatures_fit(facts, shape) {
        return Ok(Some(Rule::Signature));
    }
    if !symbols_fit(symbols, earlier, facts, shape) {
        return Ok(Some(Rule::Symbol));
    }
    if !names_fit(alloc, facts, shape)? {
        return Ok(Some(Rule::Reserved));
    }
    Ok(None)
}

fn of_values(facts: &Facts<'_>) -> Option<Rule>
    ensures { result ≡ firsts.of_values (facts_view facts.now) }
{
    if values_fit(facts) {
        None
    } else {
        Some(Rule::ValueType)
    }
}

fn later(
    alloc: Global,
    symbols: &Symbols<'_>,
    earlier: usize,
    facts: &Facts<'_>,
    shape: Shape,
) -> Result<Option<Rule>, NoMemory>
    requires { Stands symbols.now.by_name (all_declared symbols.now.functions.now) }
    ensures { IfOk result (λ r. r ≡ firsts.or_then (firsts.of_functions (seen_from symbols.now earlier) (facts_view facts.now) shape) (firsts.of_values (facts_view facts.now))) }
{
    match of_functions(alloc, symbols, earlier, facts, shape)? {
        Some(rule) => Ok(Some(rule)),
        None => Ok(of_values(facts)),
    }
}

fn of_known(
    alloc: Global,
    symbols: &Symbols<'_>,
    earlier: usize,
    facts: &Facts<'_>,
    shape: Shape,
) -> Result<Option<Rule>, NoMemory>
    requires { Stands symbols.now.by_name (all_declared symbols.now.functions.now) }
    ensures { IfOk result (λ r. r ≡ firsts.of_operation (seen_from symbols.now earlier) (facts_view facts.now) (Some shape)) }
{
    match of_shape(alloc, facts, shape)? {
        Some(rule) => Ok(Some(rule)),
        None => match of_control(facts, Some(shape)) {
            Some(rule) => Ok(Some(rule)),
            None => later(alloc, symbols, earlier, facts, shape),
        },
    }
}

fn of_unknown(facts: &Facts<'_>) -> Option<Rule>
    ensures { result ≡ firsts.or_then (firsts.of_control (facts_view facts.now) None) (firsts.of_values (facts_view facts.now)) }
{
    match of_control(facts, None) {
        Some(rule) => Some(rule),
        None => of_values(facts),
    }
}

/// The first of the rules that are tests which an operation breaks, in a function behind so many others.
pub fn first_test(
    alloc: Global,
    symbols: &Symbols<'_>,
    earlier: usize,
    facts: &Facts<'_>,
) -> Result<Option<Rule>, NoMemory>
    requires { Stands symbols.now.by_name (all_declared symbols.now.functions.now) }
    ensures { IfOk result (λ r. r ≡ firsts.first_of (seen_from symbols.now earlier) (facts_view facts.now) firsts.all_tests) }
{
    match shape_of(facts.name) {
        Some(shape) => Ok(of_known(alloc, symbols, earlier, facts, shape)?),
        None => Ok(of_unknown(facts)),
    }
}
