//! Memrefs by their parts.

ghost use Rattle.std.specs.Prelude.{◌≡◌, option_map};
ghost use Rattle.plain_tree.specs.Types.{plain_type};
ghost use Rattle.row_drafts.specs.Buffers.{as_buffer, parts_of};

use tree_model::{Dim, TypeTree};

/// The dimensions of a memref, and the type of its elements.
#[derive(Clone, Copy)]
pub struct Buffer<'a> {
    pub dims: &'a [Dim],
    pub element: &'a TypeTree,
}

/// The parts of a memref, where the type is one.
#[tactic(auto, using(row_code::proofs::Opens::type_opens))]
pub fn memref_buffer(t: &TypeTree) -> Option<Buffer<'_>>
    ensures { option_map parts_of result ≡ as_buffer (plain_type t.now) }
{
    match t {
        TypeTree::Memref(dims, element) => Some(Buffer {
            dims: dims.as_slice(),
            element: element.get(),
        }),
        TypeTree::Int(_)
        | TypeTree::Index
        | TypeTree::Func(_, _)
        | TypeTree::Ptr
        | TypeTree::Void
        | TypeTree::Struct(_)
        | TypeTree::Array(_, _)
        | TypeTree::LlvmFunc(_, _) => None,
    }
}
