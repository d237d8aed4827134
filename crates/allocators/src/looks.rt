//! What calls name, and which functions stand.
#![tactic(auto, using(crate::proofs::LookLaws::looks))]

ghost use Rattle.std.specs.Prelude.{◌≡◌, IfOk, map, option_copied, option_map};
ghost use Rattle.std.specs.List.{list_any};
ghost use Rattle.std.specs.Str.{bytes_eq};
ghost use Rattle.plain_tree.specs.Attrs.{plain_attr};
ghost use Rattle.plain_tree.specs.Ops.{plain_func, plain_op};
ghost use Rattle.conversion_model.specs.Uses.{operations};
ghost use Rattle.pattern_model.specs.ModuleStep.{calls as is_call, is_called as called, is_symbol as symbol, is_text as text, is_there as there};
ghost use Rattle.tree_walk.specs.Walks.{plain_ops};
ghost use Rattle.allocators.specs.Looks.{is_named};

use row_code::find;
use std::alloc::Global;
use tree_model::{AttrTree, Bytes, FuncTree, Name, NoMemory, OpTree};
use tree_walk::operations_of;

fn same_bytes(bytes: &Bytes, text: &[u8]) -> bool
    ensures { result ≡ bytes_eq bytes.now text.now }
{
    bytes.as_slice() == text
}

fn same_name(name: &Name, text: &[u8]) -> bool
    ensures { result ≡ bytes_eq name.now text.now }
{
    name.as_slice() == text
}

/// Whether an attribute is that symbol.
#[tactic(auto, using(row_code::proofs::Opens::attr_opens))]
fn is_symbol(name: &[u8], value: &AttrTree) -> bool
    ensures { result ≡ symbol name.now (Some (plain_attr value.now)) }
{
    match value {
        AttrTree::Symbol(bytes) => same_bytes(bytes, name),
        AttrTree::Unit
        | AttrTree::Int(_, _)
        | AttrTree::Str(_)
        | AttrTree::List(_)
        | AttrTree::Dict(_)
        | AttrTree::OfType(_)
        | AttrTree::Ints(_, _)
        | AttrTree::Dialect(_, _) => false,
    }
}

/// Whether an attribute is that text.
#[tactic(auto, using(row_code::proofs::Opens::attr_opens))]
fn is_text(name: &[u8], value: &AttrTree) -> bool
    ensures { result ≡ text name.now (Some (plain_attr value.now)) }
{
    match value {
        AttrTree::Str(bytes) => same_bytes(bytes, name),
        AttrTree::Unit
        | AttrTree::Int(_, _)
        | AttrTree::List(_)
        | AttrTree::Dict(_)
        | AttrTree::OfType(_)
        | AttrTree::Symbol(_)
        | AttrTree::Ints(_, _)
        | AttrTree::Dialect(_, _) => false,
    }
}

fn symbol_in(name: &[u8], value: Option<&AttrTree>) -> bool
    ensures { result ≡ symbol name.now (option_map plain_attr (option_copied value.entry)) }
{
    match value {
        Some(value) => is_symbol(name, value),
        None => false,
    }
}

fn text_in(name: &[u8], value: Option<&AttrTree>) -> bool
    ensures { result ≡ text name.now (option_map plain_attr (option_copied value.entry)) }
{
    match value {
        Some(value) => is_text(name, value),
        None => false,
    }
}

/// Whether an operation is a call of that name.
fn calls(name: &[u8], op: &OpTree) -> bool
    ensures { result ≡ is_call name.now (plain_op op.now) }
{
    same_name(&op.name, b"llvm.call") && symbol_in(name, find(b"callee", op.props.as_slice()))
}

fn has_call(name: &[u8], ops: &[&OpTree]) -> bool
    ensures { result ≡ list_any (is_call name.now) (plain_ops ops.now) }
{
    'each: for op in ops {
        if calls(name, op) {
            return true;
        }
    }
    false
}

fn function_calls(alloc: Global, name: &[u8], op: &OpTree) -> Result<bool, NoMemory>
    ensures { IfOk result (λ b. b ≡ list_any (λ o. is_call name.now o.1) (operations (plain_op op.now))) }
{
    let ops = operations_of(alloc, op)?;
    Ok(has_call(name, ops.as_slice()))
}

/// Whether a call of the functions names it.
pub fn is_called(alloc: Global, name: &[u8], funcs: &[FuncTree]) -> Result<bool, NoMemory>
    ensures { IfOk result (λ b. b ≡ called name.now (map plain_func funcs.now)) }
{
    'each: for f in funcs {
        if function_calls(alloc, name, &f.op)? {
            return Ok(true);
        }
    }
    Ok(false)
}

fn has_name(name: &[u8], op: &OpTree) -> bool
    ensures { result ≡ is_named name.now (plain_op op.now) }
{
    text_in(name, find(b"sym_name", op.props.as_slice()))
}

/// Whether a function has that name.
pub fn is_there(name: &[u8], funcs: &[FuncTree]) -> bool
    ensures { result ≡ there name.now (map plain_func funcs.now) }
{
    'each: for f in funcs {
        if has_name(name, &f.op) {
            return true;
        }
    }
    false
}
