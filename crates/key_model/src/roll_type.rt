//! Rolls the printed text of a type into a hash.
#![tactic(auto)]

ghost use Rattle.std.specs.Prelude.{◌≡◌, ◌++◌, true, map, flat_map, codes};
ghost use Rattle.std.specs.Fmt.{decimal};
ghost use Rattle.tree_text.specs.TypeText.{printed, text_at, llvm_lead, listed, results_at, dim_text};
ghost use Rattle.key_model.specs.Rolled.{rolled};

use crate::roll::{roll, roll_number};
use tree_model::{Dim, TypeTree};
use tree_text::is_function;

#[cycle(roll_type)]
#[tactic(auto, using(crate::proofs::RollLaws::type_laws))]
pub fn roll_type(out: &mut u32, inside: bool, t: &TypeTree)
    ensures { out.new ≡ rolled out.old (text_at inside (printed t.now)) }
{
    match t {
        TypeTree::Int(width) => {
            roll(out, b"i");
            roll_number(out, u64::from(*width));
        }
        TypeTree::Index => roll(out, b"index"),
        TypeTree::Memref(dims, element) => {
            roll(out, b"memref<");
            roll_dims(out, dims.as_slice());
            roll_type(out, inside, element.get());
            roll(out, b">");
        }
        TypeTree::Func(inputs, results) => {
            roll_types(out, inside, inputs.as_slice());
            roll(out, b" -> ");
            roll_results(out, inside, results.as_slice());
        }
        TypeTree::Ptr => roll_llvm(out, inside, b"ptr"),
        TypeTree::Void => roll_llvm(out, inside, b"void"),
        TypeTree::Struct(fields) => {
            roll_llvm(out, inside, b"struct<");
            roll_last_types(out, fields.as_slice());
        }
        TypeTree::Array(length, element) => {
            roll_llvm(out, inside, b"array<");
            roll_length(out, *length);
            roll_last_type(out, element.get());
        }
        TypeTree::LlvmFunc(output, inputs) => {
            roll_llvm(out, inside, b"func<");
            roll_output(out, output.get());
            roll_last_types(out, inputs.as_slice());
        }
    }
}

#[cycle(roll_type)]
#[tactic(auto, using(crate::proofs::RollLaws::type_laws))]
fn roll_types(out: &mut u32, inside: bool, types: &[TypeTree])
    ensures { out.new ≡ rolled out.old (listed inside (map printed types.now)) }
{
    roll(out, b"(");
    if let [first, rest @ ..] = types {
        roll_type(out, inside, first);
        for t in rest {
            roll(out, b", ");
            roll_type(out, inside, t);
        }
    }
    roll(out, b")");
}

#[cycle(roll_type)]
#[tactic(auto, using(crate::proofs::RollLaws::type_laws))]
fn roll_results(out: &mut u32, inside: bool, results: &[TypeTree])
    ensures { out.new ≡ rolled out.old (results_at inside (map printed results.now)) }
{
    if let [only] = results {
        if !is_function(only) {
            roll_type(out, inside, only);
            return;
        }
    }
    roll_types(out, inside, results);
}

// The output of a function of the llvm dialect.
#[cycle(roll_type)]
#[tactic(auto, using(crate::proofs::RollLaws::type_laws))]
fn roll_output(out: &mut u32, output: &TypeTree)
    ensures { out.new ≡ rolled out.old ((text_at true (printed output.now) ++ codes " ")) }
{
    roll_type(out, true, output);
    roll(out, b" ");
}

// What stands last in a type of the llvm dialect, where it is a type.
#[cycle(roll_type)]
#[tactic(auto, using(crate::proofs::RollLaws::type_laws))]
fn roll_last_type(out: &mut u32, t: &TypeTree)
    ensures { out.new ≡ rolled out.old ((text_at true (printed t.now) ++ codes ">")) }
{
    roll_type(out, true, t);
    roll(out, b">");
}

// What stands last in it, where it is types in parentheses.
#[cycle(roll_type)]
#[tactic(auto, using(crate::proofs::RollLaws::type_laws))]
fn roll_last_types(out: &mut u32, types: &[TypeTree])
    ensures { out.new ≡ rolled out.old ((listed true (map printed types.now) ++ codes ">")) }
{
    roll_types(out, true, types);
    roll(out, b">");
}

fn roll_llvm(out: &mut u32, inside: bool, text: &[u8])
    ensures { out.new ≡ rolled out.old ((llvm_lead inside ++ text.now)) }
{
    if !inside {
        roll(out, b"!llvm.");
    }
    roll(out, text);
}

fn roll_length(out: &mut u32, length: u64)
    ensures { out.new ≡ rolled out.old ((decimal length ++ codes " x ")) }
{
    roll_number(out, length);
    roll(out, b" x ");
}

fn roll_dims(out: &mut u32, dims: &[Dim])
    ensures { out.new ≡ rolled out.old (flat_map dim_text dims.now) }
{
    for dim in dims {
        roll_dim(out, *dim);
    }
}

fn roll_dim(out: &mut u32, dim: Dim)
    ensures { out.new ≡ rolled out.old (dim_text dim) }
{
    match dim {
        Dim::Fixed(n) => {
            roll_number(out, n);
            roll(out, b"x");
        }
        Dim::Dynamic => roll(out, b"?x"),
    }
}
