//! Runs over any memory: by recursion over regions, and as a machine with frames, with the proofs that both come to the same. A crate of definitions.
#![tactic(auto)]
