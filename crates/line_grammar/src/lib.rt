//! Grammars as data, of lines that begin with a token, and the machine that reads them: the definitions stand in specs/, the laws in proofs/.
#![tactic(auto)]

/// What is wanted: a token at a place of the grammar, or one of its parts.
#[derive(Clone, Copy, Drop)]
pub enum Symbol<P, N> {
    At(P),
    Part(N),
}
