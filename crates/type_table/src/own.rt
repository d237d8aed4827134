//! The value types of the llvm dialect.

ghost use Rattle.std.specs.Prelude.{◌≡◌, map};
ghost use Rattle.plain_tree.specs.Types.{plain_type, types_in};
ghost use Rattle.plain_tree.specs.ValueTypes.{all_own, is_own as owned};

use tree_model::TypeTree;

/// Whether a type is a value type of the llvm dialect, which the table maps to itself.
#[cycle(own)]
#[tactic(auto, using(crate::proofs::Opens::opens))]
pub fn is_own(t: &TypeTree) -> bool
    ensures { result ≡ owned (plain_type t.now) }
{
    match t {
        TypeTree::Int(_) => true,
        TypeTree::Ptr => true,
        TypeTree::Struct(fields) => are_own(fields.as_slice()),
        TypeTree::Array(_, element) => is_own(element.get()),
        TypeTree::Index
        | TypeTree::Memref(_, _)
        | TypeTree::Func(_, _)
        | TypeTree::Void
        | TypeTree::LlvmFunc(_, _) => false,
    }
}

#[cycle(own)]
fn are_own(types: &[TypeTree]) -> bool
    ensures { result ≡ all_own (types_in (map plain_type types.now)) }
{
    'each: for t in types {
        if !is_own(t) {
            return false;
        }
    }
    true
}
