//! Tests of memories, tables and doings: each call that may want memory once where it has it.
#![tactic(auto)]

#[cfg(test)]
mod memories;
#[cfg(test)]
mod steps;
