//! Copies of types.

ghost use Rattle.std.specs.Prelude.{◌≡◌, IfOk};

use crate::bytes::NoMemory;
use crate::type_tree::{TypeList, TypeTree};
use sqlite_items::{Boxed, Items};
use std::alloc::Global;

/// A copy of a type.
#[cycle(copy_type)]
pub fn copy_type(alloc: Global, t: &TypeTree) -> Result<TypeTree, NoMemory>
    ensures { IfOk result (λ u. u ≡ t.now) }
{
    match t {
        TypeTree::Int(width) => Ok(TypeTree::Int(*width)),
        TypeTree::Index => Ok(TypeTree::Index),
        TypeTree::Memref(dims, element) => {
            let dims = Items::from_slice(alloc, dims.as_slice())?;
            let element = Boxed::new(alloc, copy_type(alloc, element.get())?)?;
            Ok(TypeTree::Memref(dims, element))
        }
        TypeTree::Func(inputs, results) => {
            let inputs = copy_types(alloc, inputs.as_slice())?;
            let results = copy_types(alloc, results.as_slice())?;
            Ok(TypeTree::Func(inputs, results))
        }
        TypeTree::Ptr => Ok(TypeTree::Ptr),
        TypeTree::Void => Ok(TypeTree::Void),
        TypeTree::Struct(fields) => Ok(TypeTree::Struct(copy_types(alloc, fields.as_slice())?)),
        TypeTree::Array(length, element) => {
            let element = Boxed::new(alloc, copy_type(alloc, element.get())?)?;
            Ok(TypeTree::Array(*length, element))
        }
        TypeTree::LlvmFunc(output, inputs) => {
            let output = Boxed::new(alloc, copy_type(alloc, output.get())?)?;
            let inputs = copy_types(alloc, inputs.as_slice())?;
            Ok(TypeTree::LlvmFunc(output, inputs))
        }
    }
}

#[cycle(copy_type)]
fn copy_types(alloc: Global, types: &[TypeTree]) -> Result<TypeList, NoMemory>
    ensures { IfOk result (λ copies. copies ≡ types.now) }
{
    let mut copies = Items::new(alloc);
    for t in types {
        copies.push(copy_type(alloc, t)?)?;
    }
    Ok(copies)
}
