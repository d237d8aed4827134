//! Rules `Signature`, `Symbol`, `Reserved` and `ValueType`.
#![tactic(auto, using(crate::proofs::Opens::opens))]

ghost use Rattle.std.specs.Prelude.{◌≡◌, IfOk, Some, map, replicate, take};
ghost use Rattle.std.specs.Option.{option_copied, option_map};
ghost use Rattle.std.specs.List.{list_all};
ghost use Rattle.std.specs.Str.{bytes_eq};
ghost use Rattle.plain_tree.specs.Types.{Int, plain_type};
ghost use Rattle.plain_tree.specs.ValueTypes.{is_value};
ghost use Rattle.rule_model.specs.Control.{is_func_body, is_llvm_body};
ghost use Rattle.rule_model.specs.Forms.{same_all as same_types};
ghost use Rattle.rule_model.specs.Facts.{name_in};
ghost use Rattle.rule_model.specs.Symbols as model;
ghost use Rattle.value_types.specs.Views.{plain_types};
ghost use Rattle.rule_facts.specs.Finding.{Stands};
ghost use Rattle.rule_facts.specs.Views.{all_declared, declared_view, facts_view, heads_view, holder_view, regions_view};
ghost use Rattle.rule_tests.specs.Tests as tests;

use crate::standing::{is_func_body, is_llvm_body};
use rule_facts::{
    Declared, Facts, Head, Holder, Symbols, callee_in, function_type, name_in, shape_of,
};
use rule_model::Shape;
use sqlite_items::{Boxed, Items};
use std::alloc::Global;
use tree_model::{NoMemory, TypeTree, one};
use value_types::{all_value, is_own, own_in, same, same_all, same_as, value_in};

fn func_of_values(t: &TypeTree) -> bool
    ensures { result ≡ model.has_value_types (Some (plain_type t.now)) }
{
    match t {
        TypeTree::Func(inputs, outputs) => {
            value_in(inputs.as_slice()) && value_in(outputs.as_slice())
        }
        TypeTree::Int(_)
        | TypeTree::Index
        | TypeTree::Memref(_, _)
        | TypeTree::Ptr
        | TypeTree::Void
        | TypeTree::Struct(_)
        | TypeTree::Array(_, _)
        | TypeTree::LlvmFunc(_, _) => true,
    }
}

fn has_value_types(t: Option<&TypeTree>) -> bool
    ensures { result ≡ model.has_value_types (option_map plain_type (option_copied t.entry)) }
{
    match t {
        Some(known) => func_of_values(known),
        None => true,
    }
}

fn is_own_or_void(t: &TypeTree) -> bool
    ensures { result ≡ model.is_own_or_void (plain_type t.now) }
{
    match t {
        TypeTree::Void => true,
        TypeTree::Int(_)
        | TypeTree::Index
        | TypeTree::Memref(_, _)
        | TypeTree::Func(_, _)
        | TypeTree::Ptr
        | TypeTree::Struct(_)
        | TypeTree::Array(_, _)
        | TypeTree::LlvmFunc(_, _) => is_own(t),
    }
}

fn func_of_own(t: &TypeTree) -> bool
    ensures { result ≡ model.has_own_types (Some (plain_type t.now)) }
{
    match t {
        TypeTree::LlvmFunc(output, inputs) => {
            is_own_or_void(output.get()) && own_in(inputs.as_slice())
        }
        TypeTree::Int(_)
        | TypeTree::Index
        | TypeTree::Memref(_, _)
        | TypeTree::Func(_, _)
        | TypeTree::Ptr
        | TypeTree::Void
        | TypeTree::Struct(_)
        | TypeTree::Array(_, _) => true,
    }
}

fn has_own_types(t: Option<&TypeTree>) -> bool
    ensures { result ≡ model.has_own_types (option_map plain_type (option_copied t.entry)) }
{
    match t {
        Some(known) => func_of_own(known),
        None => true,
    }
}

fn returns_of(types: &[&TypeTree], t: &TypeTree) -> bool
    ensures { result ≡ model.returns_types (plain_types types.now) (Some (plain_type t.now)) }
{
    match t {
        TypeTree::Func(_, outputs) => same_as(types, outputs.as_slice()),
        TypeTree::Int(_)
        | TypeTree::Index
        | TypeTree::Memref(_, _)
        | TypeTree::Ptr
        | TypeTree::Void
        | TypeTree::Struct(_)
        | TypeTree::Array(_, _)
        | TypeTree::LlvmFunc(_, _) => true,
    }
}

fn returns_types(types: &[&TypeTree], t: Option<&TypeTree>) -> bool
    ensures { result ≡ model.returns_types (plain_types types.now) (option_map plain_type (option_copied t.entry)) }
{
    match t {
        Some(known) => returns_of(types, known),
        None => true,
    }
}

/// The types are the results of an llvm function: none for `void`.
fn are_llvm_results(types: &[&TypeTree], output: &TypeTree) -> bool
    ensures { result ≡ same_types (plain_types types.now) (model.llvm_results (plain_type output.now)) }
{
    match output {
        TypeTree::Void => same_all(types, &[]),
        TypeTree::Int(_)
        | TypeTree::Index
        | TypeTree::Memref(_, _)
        | TypeTree::Func(_, _)
        | TypeTree::Ptr
        | TypeTree::Struct(_)
        | TypeTree::Array(_, _)
        | TypeTree::LlvmFunc(_, _) => same_all(types, &[output]),
    }
}

fn returns_llvm_of(types: &[&TypeTree], t: &TypeTree) -> bool
    ensures { result ≡ model.returns_llvm_types (plain_types types.now) (Some (plain_type t.now)) }
{
    match t {
        TypeTree::LlvmFunc(output, _) => are_llvm_results(types, output.get()),
        TypeTree::Int(_)
        | TypeTree::Index
        | TypeTree::Memref(_, _)
        | TypeTree::Func(_, _)
        | TypeTree::Ptr
        | TypeTree::Void
        | TypeTree::Struct(_)
        | TypeTree::Array(_, _) => true,
    }
}

fn returns_llvm_types(types: &[&TypeTree], t: Option<&TypeTree>) -> bool
    ensures { result ≡ model.returns_llvm_types (plain_types types.now) (option_map plain_type (option_copied t.entry)) }
{
    match t {
        Some(known) => returns_llvm_of(types, known),
        None => true,
    }
}

/// A return right in a func.func returns its results.
fn func_returns(types: &[&TypeTree], holder: &Option<Holder<'_>>) -> bool
    ensures { result ≡ tests.returns_fit is_func_body model.returns_types (plain_types types.now) (option_map holder_view holder.now) }
{
    match holder {
        Some(h) => !is_func_body(shape_of(h.name)) || returns_types(types, function_type(h.props)),
        None => true,
    }
}

/// A return right in an llvm.func returns its results.
fn llvm_returns(types: &[&TypeTree], holder: &Option<Holder<'_>>) -> bool
    ensures { result ≡ tests.returns_fit is_llvm_body model.returns_llvm_types (plain_types types.now) (option_map holder_view holder.now) }
{
    match holder {
        Some(h) => {
            !is_llvm_body(shape_of(h.name)) || returns_llvm_types(types, function_type(h.props))
        }
        None => true,
    }
}

/// Whether the types of a function, or of what a return passes, are as they are to be.
pub fn signatures_fit(facts: &Facts<'_>, shape: Shape) -> bool
    ensures { result ≡ tests.signatures_fit (facts_view facts.now) shape }
{
    match shape {
        Shape::FuncFunction => has_value_types(function_type(facts.props)),
        Shape::LlvmFunction => has_own_types(function_type(facts.props)),
        Shape::FuncReturn => func_returns(facts.operands, &facts.holder),
        Shape::LlvmReturn => llvm_returns(facts.operands, &facts.holder),
        _ => true,
    }
}

fn is_call_type(operands: &[&TypeTree], results: &[&TypeTree], t: &TypeTree) -> bool
    ensures { result ≡ model.has_call_type (plain_types operands.now) (plain_types results.now) (Some (plain_type t.now)) }
{
    match t {
        TypeTree::Func(inputs, outputs) => {
            same_as(operands, inputs.as_slice()) && same_as(results, outputs.as_slice())
        }
        TypeTree::Int(_)
        | TypeTree::Index
        | TypeTree::Memref(_, _)
        | TypeTree::Ptr
        | TypeTree::Void
        | TypeTree::Struct(_)
        | TypeTree::Array(_, _)
        | TypeTree::LlvmFunc(_, _) => false,
    }
}

fn has_call_type(operands: &[&TypeTree], results: &[&TypeTree], t: Option<&TypeTree>) -> bool
    ensures { result ≡ model.has_call_type (plain_types operands.now) (plain_types results.now) (option_map plain_type (option_copied t.entry)) }
{
    match t {
        Some(known) => is_call_type(operands, results, known),
        None => false,
    }
}

fn is_llvm_call_type(operands: &[&TypeTree], results: &[&TypeTree], t: &TypeTree) -> bool
    ensures { result ≡ model.has_llvm_call_type (plain_types operands.now) (plain_types results.now) (Some (plain_type t.now)) }
{
    match t {
        TypeTree::LlvmFunc(output, inputs) => {
            same_as(operands, inputs.as_slice()) && are_llvm_results(results, output.get())
        }
        TypeTree::Int(_)
        | TypeTree::Index
        | TypeTree::Memref(_, _)
        | TypeTree::Func(_, _)
        | TypeTree::Ptr
        | TypeTree::Void
        | TypeTree::Struct(_)
        | TypeTree::Array(_, _) => false,
    }
}

fn has_llvm_call_type(operands: &[&TypeTree], results: &[&TypeTree], t: Option<&TypeTree>) -> bool
    ensures { result ≡ model.has_llvm_call_type (plain_types operands.now) (plain_types results.now) (option_map plain_type (option_copied t.entry)) }
{
    match t {
        Some(known) => is_llvm_call_type(operands, results, known),
        None => false,
    }
}

/// The function is there, a func.func of the type that is called.
fn is_callee(callee: Option<Declared<'_>>, facts: &Facts<'_>) -> bool
    ensures { result ≡ tests.is_callee is_func_body (model.has_call_type (facts_view facts.now).operands (facts_view facts.now).results) (option_map declared_view callee.entry) }
{
    match callee {
        Some(f) => {
            is_func_body(shape_of(f.kind))
                && has_call_type(facts.operands, facts.results, function_type(f.props))
        }
        None => false,
    }
}

/// The function is there, an llvm.func of the type that is called.
fn is_llvm_callee(callee: Option<Declared<'_>>, facts: &Facts<'_>) -> bool
    ensures { result ≡ tests.is_callee is_llvm_body (model.has_llvm_call_type (facts_view facts.now).operands (facts_view facts.now).results) (option_map declared_view callee.entry) }
{
    match callee {
        Some(f) => {
            is_llvm_body(shape_of(f.kind))
                && has_llvm_call_type(facts.operands, facts.results, function_type(f.props))
        }
        None => false,
    }
}

fn is_new(symbols: &Symbols<'_>, earlier: usize, facts: &Facts<'_>) -> bool
    requires { Stands symbols.now.by_name (all_declared symbols.now.functions.now) }
    ensures { result ≡ model.is_new_name (take earlier (all_declared symbols.now.functions.now)) (name_in (facts_view facts.now).props) }
{
    match name_in(facts.props) {
        Some(name) => symbols.is_new(earlier, name),
        None => true,
    }
}

fn calls_func(symbols: &Symbols<'_>, facts: &Facts<'_>) -> bool
    requires { Stands symbols.now.by_name (all_declared symbols.now.functions.now) }
    ensures { result ≡ model.calls_one (tests.is_callee is_func_body (model.has_call_type (facts_view facts.now).operands (facts_view facts.now).results)) (all_declared symbols.now.functions.now) (model.callee_in (facts_view facts.now).props) }
{
    match callee_in(facts.props) {
        Some(name) => is_callee(symbols.function_named(name), facts),
        None => true,
    }
}

fn calls_llvm(symbols: &Symbols<'_>, facts: &Facts<'_>) -> bool
    requires { Stands symbols.now.by_name (all_declared symbols.now.functions.now) }
    ensures { result ≡ model.calls_one (tests.is_callee is_llvm_body (model.has_llvm_call_type (facts_view facts.now).operands (facts_view facts.now).results)) (all_declared symbols.now.functions.now) (model.callee_in (facts_view facts.now).props) }
{
    match callee_in(facts.props) {
        Some(name) => is_llvm_callee(symbols.function_named(name), facts),
        None => true,
    }
}

/// Whether a function's name is new, behind so many functions, or what is called is there.
pub fn symbols_fit(symbols: &Symbols<'_>, earlier: usize, facts: &Facts<'_>, shape: Shape) -> bool
    requires { Stands symbols.now.by_name (all_declared symbols.now.functions.now) }
    ensures { result ≡ tests.symbols_fit (tests.seen_from symbols.now earlier) (facts_view facts.now) shape }
{
    match shape {
        Shape::FuncFunction | Shape::LlvmFunction => is_new(symbols, earlier, facts),
        Shape::FuncCall => calls_func(symbols, facts),
        Shape::LlvmCall => calls_llvm(symbols, facts),
        _ => true,
    }
}

fn wide_types(alloc: Global, count: usize) -> Result<Items<TypeTree>, NoMemory>
    ensures { IfOk result (λ ts. map plain_type ts ≡ replicate count (Int 64)) }
{
    let mut types = Vec::with_capacity(alloc, count)?;
    for _index in 0..count {
        types.push(TypeTree::Int(64))?;
    }
    Ok(Items::from_vec(types))
}

fn is_one(name: &[u8], text: &[u8]) -> bool
    ensures { result ≡ bytes_eq text.now name.now }
{
    text == name
}

/// The type of the function that makes or ends buffers, where one has this name.
fn allocator(alloc: Global, name: &[u8]) -> Result<Option<TypeTree>, NoMemory>
    ensures { IfOk result (λ t. option_map plain_type t ≡ model.allocator_in name.now model.allocators) }
{
    if is_one(name, b"malloc") {
        let output = Boxed::new(alloc, TypeTree::Ptr)?;
        return Ok(Some(TypeTree::LlvmFunc(output, wide_types(alloc, 1)?)));
    }
    if is_one(name, b"free") {
        let output = Boxed::new(alloc, TypeTree::Void)?;
        return Ok(Some(TypeTree::LlvmFunc(output, one(alloc, TypeTree::Ptr)?)));
    }
    if is_one(name, b"aligned_alloc") {
        let output = Boxed::new(alloc, TypeTree::Ptr)?;
        return Ok(Some(TypeTree::LlvmFunc(output, wide_types(alloc, 2)?)));
    }
    Ok(None)
}

fn is_type(t: &TypeTree, found: Option<&TypeTree>) -> bool
    ensures { result ≡ model.is_type (plain_type t.now) (option_map plain_type (option_copied found.entry)) }
{
    match found {
        Some(u) => same(u, t),
        None => false,
    }
}

/// One region without blocks.
fn has_no_body(regions: &[Vec<Head<'_>>]) -> bool
    ensures { result ≡ model.has_no_body (regions_view regions.now) }
{
    match regions {
        [r] => r.is_empty(),
        _ => false,
    }
}

/// An llvm.func of this type without a body.
fn is_declaration(facts: &Facts<'_>, t: &TypeTree) -> bool
    ensures { result ≡ tests.is_declaration (facts_view facts.now) (plain_type t.now) }
{
    is_llvm_body(shape_of(facts.name))
        && is_type(t, function_type(facts.props))
        && has_no_body(facts.regions)
}

fn named_declares(alloc: Global, facts: &Facts<'_>, name: &[u8]) -> Result<bool, NoMemory>
    ensures { IfOk result (λ b. b ≡ tests.is_declared (facts_view facts.now) (model.allocator_in name.now model.allocators)) }
{
    match allocator(alloc, name)? {
        Some(t) => Ok(is_declaration(facts, &t)),
        None => Ok(true),
    }
}

fn declares(alloc: Global, facts: &Facts<'_>) -> Result<bool, NoMemory>
    ensures { IfOk result (λ b. b ≡ tests.declares (facts_view facts.now)) }
{
    match name_in(facts.props) {
        Some(name) => named_declares(alloc, facts, name),
        None => Ok(true),
    }
}

/// Whether a function with the name of an allocator is its declaration.
pub fn names_fit(alloc: Global, facts: &Facts<'_>, shape: Shape) -> Result<bool, NoMemory>
    ensures { IfOk result (λ b. b ≡ tests.names_fit (facts_view facts.now) shape) }
{
    match shape {
        Shape::FuncFunction | Shape::LlvmFunction => declares(alloc, facts),
        _ => Ok(true),
    }
}

fn args_are_values(heads: &[Head<'_>]) -> bool
    ensures { result ≡ list_all (λ h. list_all is_value h.args) (heads_view heads.now) }
{
    for head in heads {
        if !all_value(head.args.as_slice()) {
            return false;
        }
    }
    true
}

fn all_args_are_values(regions: &[Vec<Head<'_>>]) -> bool
    ensures { result ≡ list_all (list_all (λ h. list_all is_value h.args)) (regions_view regions.now) }
{
    for region in regions {
        if !args_are_values(region.as_slice()) {
            return false;
        }
    }
    true
}

/// Whether each result, and each argument of a block right within, has the type of a value.
pub fn values_fit(facts: &Facts<'_>) -> bool
    ensures { result ≡ model.values_fit (facts_view facts.now) }
{
    all_value(facts.results) && all_args_are_values(facts.regions)
}
