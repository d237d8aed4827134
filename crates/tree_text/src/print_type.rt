//! Prints types.
#![tactic(auto, using(crate::proofs::GrewLaws::grew_laws))]

ghost use Rattle.std.specs.Prelude.{◌≡◌, ◌++◌, IfOk, OnOk, OnErr, true, map, flat_map, codes};
ghost use Rattle.std.specs.Fmt.{decimal};
ghost use Rattle.tree_text.specs.Grew.{Grew};
ghost use Rattle.tree_text.specs.TypeText.{printed, text_at, llvm_lead, listed, results_at, dim_text, type_text, types_text};

use crate::grow::{add, add_number};
use std::alloc::Global;
use tree_model::{Bytes, Dim, NoMemory, TypeTree};

/// The printed text of a type.
pub fn type_text(alloc: Global, t: &TypeTree) -> Result<Bytes, NoMemory>
    ensures { IfOk result (λ text. text ≡ type_text t.now) }
{
    let mut out = Bytes::new(alloc);
    add_type(&mut out, false, t)?;
    Ok(out)
}

/// Whether the type is a function type.
pub fn is_function(t: &TypeTree) -> bool
    ensures { result ≡ (printed t.now).is_function }
{
    match t {
        TypeTree::Func(_, _) => true,
        _ => false,
    }
}

/// Appends a type.
pub fn put_type(out: &mut Bytes, t: &TypeTree) -> Result<(), NoMemory>
    ensures ok { OnOk result (out.new ≡ out.old ++ type_text t.now) }
    ensures err { OnErr result (out.new ≡ out.old) }
{
    let len = out.len();
    if let Err(fault) = add_type(out, false, t) {
        out.truncate(len);
        return Err(fault);
    }
    Ok(())
}

/// Appends types in parentheses.
pub fn put_types(out: &mut Bytes, types: &[TypeTree]) -> Result<(), NoMemory>
    ensures ok { OnOk result (out.new ≡ out.old ++ types_text types.now) }
    ensures err { OnErr result (out.new ≡ out.old) }
{
    let len = out.len();
    if let Err(fault) = add_types(out, false, types) {
        out.truncate(len);
        return Err(fault);
    }
    Ok(())
}

#[cycle(add_type)]
#[tactic(auto, using(crate::proofs::TypeLaws::type_laws))]
pub fn add_type(out: &mut Bytes, inside: bool, t: &TypeTree) -> Result<(), NoMemory>
    ensures ok { OnOk result (out.new ≡ out.old ++ text_at inside (printed t.now)) }
    ensures grew { Grew out.old out.new }
{
    match t {
        TypeTree::Int(width) => {
            add(out, b"i")?;
            add_number(out, u64::from(*width))
        }
        TypeTree::Index => add(out, b"index"),
        TypeTree::Memref(dims, element) => {
            add(out, b"memref<")?;
            add_dims(out, dims.as_slice())?;
            add_type(out, inside, element.get())?;
            add(out, b">")
        }
        TypeTree::Func(inputs, results) => {
            add_types(out, inside, inputs.as_slice())?;
            add(out, b" -> ")?;
            add_results(out, inside, results.as_slice())
        }
        TypeTree::Ptr => add_llvm(out, inside, b"ptr"),
        TypeTree::Void => add_llvm(out, inside, b"void"),
        TypeTree::Struct(fields) => {
            add_llvm(out, inside, b"struct<")?;
            add_last_types(out, fields.as_slice())
        }
        TypeTree::Array(length, element) => {
            add_llvm(out, inside, b"array<")?;
            add_length(out, *length)?;
            add_last_type(out, element.get())
        }
        TypeTree::LlvmFunc(output, inputs) => {
            add_llvm(out, inside, b"func<")?;
            add_output(out, output.get())?;
            add_last_types(out, inputs.as_slice())
        }
    }
}

#[cycle(add_type)]
#[tactic(auto, using(crate::proofs::TypeLaws::type_laws))]
fn add_types(out: &mut Bytes, inside: bool, types: &[TypeTree]) -> Result<(), NoMemory>
    ensures ok { OnOk result (out.new ≡ out.old ++ listed inside (map printed types.now)) }
    ensures grew { Grew out.old out.new }
{
    add(out, b"(")?;
    if let [first, rest @ ..] = types {
        add_type(out, inside, first)?;
        for t in rest {
            add(out, b", ")?;
            add_type(out, inside, t)?;
        }
    }
    add(out, b")")
}

#[cycle(add_type)]
#[tactic(auto, using(crate::proofs::TypeLaws::type_laws))]
fn add_results(out: &mut Bytes, inside: bool, results: &[TypeTree]) -> Result<(), NoMemory>
    ensures ok { OnOk result (out.new ≡ out.old ++ results_at inside (map printed results.now)) }
    ensures grew { Grew out.old out.new }
{
    if let [only] = results {
        if !is_function(only) {
            return add_type(out, inside, only);
        }
    }
    add_types(out, inside, results)
}

// The output of a function of the llvm dialect.
#[cycle(add_type)]
#[tactic(auto, using(crate::proofs::TypeLaws::type_laws))]
fn add_output(out: &mut Bytes, output: &TypeTree) -> Result<(), NoMemory>
    ensures ok { OnOk result (out.new ≡ out.old ++ (text_at true (printed output.now) ++ codes " ")) }
    ensures grew { Grew out.old out.new }
{
    add_type(out, true, output)?;
    add(out, b" ")
}

// What stands last in a type of the llvm dialect, where it is a type.
#[cycle(add_type)]
#[tactic(auto, using(crate::proofs::TypeLaws::type_laws))]
fn add_last_type(out: &mut Bytes, t: &TypeTree) -> Result<(), NoMemory>
    ensures ok { OnOk result (out.new ≡ out.old ++ (text_at true (printed t.now) ++ codes ">")) }
    ensures grew { Grew out.old out.new }
{
    add_type(out, true, t)?;
    add(out, b">")
}

// What stands last in it, where it is types in parentheses.
#[cycle(add_type)]
#[tactic(auto, using(crate::proofs::TypeLaws::type_laws))]
fn add_last_types(out: &mut Bytes, types: &[TypeTree]) -> Result<(), NoMemory>
    ensures ok { OnOk result (out.new ≡ out.old ++ (listed true (map printed types.now) ++ codes ">")) }
    ensures grew { Grew out.old out.new }
{
    add_types(out, true, types)?;
    add(out, b">")
}

fn add_llvm(out: &mut Bytes, inside: bool, text: &[u8]) -> Result<(), NoMemory>
    ensures ok { OnOk result (out.new ≡ out.old ++ (llvm_lead inside ++ text.now)) }
    ensures grew { Grew out.old out.new }
{
    if !inside {
        add(out, b"!llvm.")?;
    }
    add(out, text)
}

fn add_length(out: &mut Bytes, length: u64) -> Result<(), NoMemory>
    ensures ok { OnOk result (out.new ≡ out.old ++ (decimal length ++ codes " x ")) }
    ensures grew { Grew out.old out.new }
{
    add_number(out, length)?;
    add(out, b" x ")
}

fn add_dims(out: &mut Bytes, dims: &[Dim]) -> Result<(), NoMemory>
    ensures ok { OnOk result (out.new ≡ out.old ++ flat_map dim_text dims.now) }
    ensures grew { Grew out.old out.new }
{
    for dim in dims {
        add_dim(out, *dim)?;
    }
    Ok(())
}

fn add_dim(out: &mut Bytes, dim: Dim) -> Result<(), NoMemory>
    ensures ok { OnOk result (out.new ≡ out.old ++ dim_text dim) }
    ensures grew { Grew out.old out.new }
{
    match dim {
        Dim::Fixed(n) => {
            add_number(out, n)?;
            add(out, b"x")
        }
        Dim::Dynamic => add(out, b"?x"),
    }
}
