//! Grammars as values over lists of tokens, with their laws: the definitions stand in specs/, the laws in proofs/.
#![tactic(auto)]

ghost use Rattle.std.specs.Prelude.{◌≡◌};
ghost use Rattle.grammar_model.specs.declared.Stop.TheVariants.{Memory};

use std::alloc::{AllocError, AllocFailed};

/// Why a reader of tokens stopped.
#[derive(Clone, Copy)]
pub enum Stop<'a, W> {
    Memory,
    /// What is left from the first token that does not fit.
    At(&'a [W]),
}

impl<'a, W> From<AllocError> for Stop<'a, W> {
    ghost from_gives = { λ _ e. e ≡ Memory };

    fn from(_e: AllocError) -> Stop<'a, W> {
        Stop::Memory
    }
}

impl<'a, W, T: Drop> From<AllocFailed<T>> for Stop<'a, W> {
    ghost from_gives = { λ _ e. e ≡ Memory };

    fn from(_e: AllocFailed<T>) -> Stop<'a, W> {
        Stop::Memory
    }
}
