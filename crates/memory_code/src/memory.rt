//! What a run asks of a memory.

ghost use Rattle.std.specs.Prelude.{◌≡◌, ℕ, ◌^◌, min, [], IfOk};
ghost use Rattle.operation_model.specs.Doings.{Question, Load, Store, Allocate, Free};
ghost use Rattle.machine_model.specs.Worlds.{Reply};
ghost use Rattle.value_code.specs.Models.{place_of};
ghost use Rattle.memory_code.specs.Stands.{reply_of, Changes, Makes};

use run_code::Width;
use std::alloc::AllocError;
use value_code::{Looked, Place};

/// A memory that answers the questions of the definitions. An error is want of memory: then nothing more is known of it.
pub trait Memory: Drop {
    /// The states of the definition's memory.
    ghost State: { Type 0 };

    /// What the definition's memory replies.
    ghost ask: { Question → State → Reply State };

    /// Whether the memory stands for a state.
    ghost Stands: { Self → State → Type 0 };

    fn load(&self, w: Width, p: Place) -> Looked<u64>
        ensures { (s : State) → Stands self.now s → reply_of result s ≡ ask (Load w.bits (place_of p)) s };

    /// Whether there is such a place.
    fn store(&mut self, w: Width, n: u64, p: Place) -> Result<bool, AllocError>
        ensures { IfOk result (λ done. (s : State) → Stands self.old s → Changes Stands done self.new (ask (Store w.bits n (place_of p)) s)) };

    /// The place where the new bytes begin. Their number is told up to 2 to the 65, which no memory has.
    fn allocate(&mut self, alignment: u64, n: u128) -> Result<Option<Place>, AllocError>
        ensures { IfOk result (λ at. (size : ℕ) → n ≡ min size (2 ^ 65) → (s : State) → Stands self.old s → Makes Stands at self.new (ask (Allocate alignment size) s)) };

    /// Whether a buffer begins there.
    fn free(&mut self, p: Place) -> bool
        ensures { (s : State) → Stands self.old s → Changes Stands result self.new (ask (Free (place_of p)) s) };
}
