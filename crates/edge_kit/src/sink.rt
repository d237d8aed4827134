//! Where the bytes of the output go.

ghost use Rattle.std.specs.Prelude.{◌≡◌, ℕ, ◌+◌, ◌<◌, ◌≤◌, ◌↔◌, [], ◌++◌, List, length, take, IsErrOf, Contains, Option, Some, OnErr, OnOk, IfOk};
ghost use Rattle.std.specs.Io.KnownBytes.{WriteAppends};
ghost use Rattle.edge_kit.specs.Edges.{TakesSome, WriteHasCause};
ghost use Rattle.edge_kit.specs.Memory.{one_more};

use std::alloc::{AllocError, Global};
use std::fmt;
use std::io::Write;
use std::marker::Model;

/// Why a sink took nothing.
#[derive(Clone, Copy, PartialEq, Eq, Debug, thiserror::Error)]
pub enum SinkFault {
    /// The write failed, and the sink has counted a fault.
    #[error("the write failed")]
    Failed,
    /// There was no memory for the bytes.
    #[error("out of memory")]
    NoMemory,
}

/// Where bytes go.
pub trait Sink {
    // The bytes taken, where the sink tells them.
    ghost held: { Self → Option (List ℕ) };

    // How many writes have failed, a number that never falls.
    ghost faults: { Self → ℕ };

    /// Takes bytes from the front of `bytes`, at least one where there is one, and tells how many.
    fn write(&mut self, bytes: &[u8]) -> Result<usize, SinkFault>
        ensures takes { TakesSome result bytes.now }
        ensures held { WriteAppends (held self.old) (held self.new) result bytes.now }
        ensures cause { WriteHasCause (faults self.old) (faults self.new) result };
}

/// A sink that keeps its bytes in memory, with writes that fail at chosen calls.
#[derive(Drop)]
pub struct MemSink {
    bytes: Vec<u8>,
    fails: Vec<u64>,
    calls: u64,
    faults: u64,
}

impl Model for MemSink {
    ghost use Rattle.edge_kit.specs.Memory.{Store};

    ghost Value = { Store };

    ghost view = { λ s. record { held = s.bytes.items; fails = s.fails.items; calls = s.calls; faults = s.faults } };
}

impl MemSink {
    /// An empty sink whose calls with the numbers in `fails`, counted from 0, fail.
    pub fn new(alloc: Global, fails: Vec<u64>) -> MemSink
        ensures { result ≡ record { held = []; fails = fails.items; calls = 0; faults = 0 } }
    {
        MemSink {
            bytes: Vec::new(alloc),
            fails,
            calls: 0,
            faults: 0,
        }
    }

    /// The bytes that it holds.
    pub fn bytes(&self) -> &[u8]
        ensures { result.now ≡ self.now.held }
    {
        self.bytes.as_slice()
    }
}

impl Sink for MemSink {
    ghost held = { λ s. Some s.held };

    ghost faults = { λ s. s.faults };

    fn write(&mut self, bytes: &[u8]) -> Result<usize, SinkFault>
        ensures takes { TakesSome result bytes.now }
        ensures held { WriteAppends (Some self.old.held) (Some self.new.held) result bytes.now }
        ensures cause { WriteHasCause self.old.faults self.new.faults result }
        ensures exact { IsErrOf result SinkFault.Failed ↔ Contains self.old.fails self.old.calls }
        ensures counted { self.new.calls ≡ one_more self.old.calls }
        ensures fails { self.new.fails ≡ self.old.fails }
        ensures whole { IfOk result (λ count. count ≡ length bytes.now) }
        ensures risen { IsErrOf result SinkFault.Failed → self.new.faults ≡ one_more self.old.faults }
    {
        let fails = self.fails.as_slice().contains(&self.calls);
        self.calls = self.calls.saturating_add(1);
        if fails {
            self.faults = self.faults.saturating_add(1);
            return Err(SinkFault::Failed);
        }
        append(&mut self.bytes, bytes)
    }
}

/// A sink that keeps its bytes in memory, without a fault.
#[derive(Drop)]
pub struct SureSink {
    bytes: Vec<u8>,
}

impl Model for SureSink {
    ghost use Rattle.std.specs.Prelude.{ℕ, List};

    ghost Value = { List ℕ };

    ghost view = { λ s. s.bytes.items };
}

impl SureSink {
    /// An empty sink that never fails.
    pub fn new(alloc: Global) -> SureSink
        ensures { result ≡ [] }
    {
        SureSink {
            bytes: Vec::new(alloc),
        }
    }

    /// The bytes that it holds.
    pub fn bytes(&self) -> &[u8]
        ensures { result.now ≡ self.now }
    {
        self.bytes.as_slice()
    }
}

impl Sink for SureSink {
    ghost held = { λ s. Some s };

    ghost faults = { λ _. 0 };

    fn write(&mut self, bytes: &[u8]) -> Result<usize, SinkFault>
        ensures takes { TakesSome result bytes.now }
        ensures held { WriteAppends (Some self.old) (Some self.new) result bytes.now }
        ensures cause { WriteHasCause 0 0 result }
        ensures whole { IfOk result (λ count. count ≡ length bytes.now) }
    {
        append(&mut self.bytes, bytes)
    }
}

/// A writer of std's, which tells no more than that writer does.
#[derive(Drop)]
pub struct StdSink<W> {
    writer: W,
    faults: u64,
}

impl<W: Write> StdSink<W> {
    /// Passes bytes on to `writer`. Each of its errors is a fault, and so is a write that takes nothing
    /// of bytes that are there.
    pub fn new(writer: W) -> StdSink<W>
        ensures writer { result.writer ≡ writer }
        ensures faults { result.faults ≡ 0 }
    {
        StdSink { writer, faults: 0 }
    }
}

impl<W: Write> Sink for StdSink<W> {
    ghost held = { λ s. W.contents s.writer };

    ghost faults = { λ s. s.faults };

    fn write(&mut self, bytes: &[u8]) -> Result<usize, SinkFault>
        ensures takes { TakesSome result bytes.now }
        ensures held { WriteAppends (W.contents self.old.writer) (W.contents self.new.writer) result bytes.now }
        ensures cause { WriteHasCause self.old.faults self.new.faults result }
        ensures nothing { bytes.now ≡ [] → (result ≡ Ok 0) × (self.new ≡ self.old) }
        ensures risen { IsErrOf result SinkFault.Failed → self.new.faults ≡ one_more self.old.faults }
        ensures no_memory { IsErrOf result SinkFault.NoMemory → ⊥ }
    {
        if bytes.is_empty() {
            return Ok(0);
        }
        match self.writer.write(bytes) {
            Ok(count) if count > 0 => Ok(count),
            _ => {
                self.faults = self.faults.saturating_add(1);
                Err(SinkFault::Failed)
            }
        }
    }
}

// Puts all of `bytes` behind what `held` has, or leaves it where there is no memory.
fn append(held: &mut Vec<u8>, bytes: &[u8]) -> Result<usize, SinkFault>
    ensures ok { IfOk result (λ count. (count ≡ length bytes.now) × (held.new.items ≡ held.old.items ++ bytes.now)) }
    ensures err { OnErr result (held.new.items ≡ held.old.items) }
    ensures never { IsErrOf result SinkFault.Failed → ⊥ }
{
    match held.extend_from_slice(bytes) {
        Ok(()) => Ok(bytes.len()),
        Err(AllocError) => Err(SinkFault::NoMemory),
    }
}
