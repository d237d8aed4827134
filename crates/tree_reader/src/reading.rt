//! The call that reads a text.

ghost use Rattle.std.specs.Prelude.{◌≡◌, ◌≤◌, ◌^◌, ℕ, IfOk, IfErr, length};
ghost use Rattle.tree_model.specs.declared.op_tree.ModuleTree.{ModuleTree};
ghost use Rattle.text_kinds.specs.declared.found.Kind.{Kind};
ghost use Rattle.tree_reader.specs.Answers.{Gives, Refuses, IsRefused};
ghost use Rattle.tree_reading.specs.Reading.{Reads, ReadsNot};

use crate::trees::tree_of;
use std::alloc::{AllocError, Global};
use text_kinds::Kind;
use text_refusals::find;
use tree_model::ModuleTree;

/// Why a text is not read.
#[derive(Clone, Copy, Drop)]
pub enum ReadRefusal {
    /// The text is refused at this byte, as of this kind.
    At { place: usize, kind: Kind },
    /// There is not enough memory.
    NoMemory,
}

/// Reads a text of the generic form. Unregistered operations are read where they are allowed.
pub fn read_tree(alloc: Global, text: &[u8], allow: bool) -> Result<ModuleTree, ReadRefusal>
    requires { length text.now ≤ 2 ^ 24 }
    ensures ok { IfOk result (Reads text.now allow) }
    ensures at { IfErr result (IsRefused text.now allow) }
    ensures only { (A : ModuleTree) → Reads text.now allow A → Gives A result }
    ensures refused { (place : ℕ) (kind : Kind) → ReadsNot text.now allow place kind → Refuses place kind result }
{
    match find(alloc, text, allow) {
        Ok(found) => match found.refusal {
            None => match tree_of(alloc, text, &found) {
                Ok(tree) => Ok(tree),
                Err(AllocError) => Err(ReadRefusal::NoMemory),
            },
            Some(refusal) => Err(ReadRefusal::At {
                place: refusal.place,
                kind: refusal.kind,
            }),
        },
        Err(AllocError) => Err(ReadRefusal::NoMemory),
    }
}
