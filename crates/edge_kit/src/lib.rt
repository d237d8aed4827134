//! The edges of the tool: where bytes come from, where they go, and the words of a command.
//!
//! A [`Source`] and a [`Sink`] tell contracts the bytes that are left or held, where they are known, and
//! a count of faults that never falls. A fault is answered only where that count rose in the call.
#![tactic(auto)]

pub mod sink;
pub mod source;
pub mod words;

pub use sink::{MemSink, Sink, SinkFault, StdSink, SureSink};
pub use source::{Failed, MemSource, Source, StdSource, SureSource};
pub use words::Words;

/// Want of memory, the one answer that no contract ties to a cause.
pub type NoMemory = std::alloc::AllocError;
