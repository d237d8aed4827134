//! Reading an input to its end, and writing a text whole.

ghost use Rattle.std.specs.Prelude.{◌≡◌, ℕ, ◌+◌, ◌^◌, ◌<◌, ◌≤◌, List, length, take, drop, IfOk, IfErr, OnErr, OnOk, MatchResult, MatchOption, IfSome, IfNone, Some, None, IsErrOf, IsErr};
ghost use Rattle.std.specs.Io.KnownBytes.{Consumes, Appends, IsAtEnd, Keeps};
ghost use Rattle.edge_kit.specs.Edges.{Rose};
ghost use Rattle.tool_cli.specs.Runs.{IsInput, TakesFront};

use crate::run::Stop;
use edge_kit::{Sink, SinkFault, Source};
use std::alloc::{AllocError, Global};

/// The greatest length of an input, in bytes.
pub const MAX_INPUT: usize = 1 << 24;

// How many bytes one read asks for.
const CHUNK: usize = 1 << 16;

/// The whole input, or none where it is longer than [`MAX_INPUT`].
pub fn read_input<S: Source>(alloc: Global, input: &mut S) -> Result<Option<Vec<u8>>, Stop>
    ensures whole { IfOk result (λ o. IfSome o (λ text. IsInput (S.left input.old) text.items × IsAtEnd (S.left input.new))) }
    ensures bounded { IfOk result (λ o. IfSome o (λ text. length text.items ≤ MAX_INPUT)) }
    ensures long { IfOk result (λ o. IfNone o ((bytes : List ℕ) × IsInput (S.left input.old) bytes × (MAX_INPUT < length bytes))) }
    ensures cause { IsErrOf result Stop.ReadFault → Rose (S.faults input.old) (S.faults input.new) }
    ensures quiet { OnOk result (S.faults input.new ≡ S.faults input.old) }
    ensures wanting { IsErrOf result Stop.NoMemory → S.faults input.new ≡ S.faults input.old }
{
    let mut text = Vec::new(alloc);
    let mut buffer = vec![in alloc; 0; CHUNK]?;
    let chunk = buffer.as_mut_slice();
    'reads: for _ in 0..MAX_INPUT + 2 {
        if text.len() > MAX_INPUT {
            return Ok(None);
        }
        let Ok(count) = input.read(chunk) else {
            return Err(Stop::ReadFault);
        };
        if count == 0 {
            return Ok(Some(text));
        }
        text.extend_from_slice(&chunk[..count])?;
    }
    Ok(None)
}

/// Writes all of `bytes`.
pub fn write_all<K: Sink>(sink: &mut K, bytes: &[u8]) -> Result<(), SinkFault>
    ensures ok { OnOk result (Appends (K.held sink.old) (K.held sink.new) bytes.now) }
    ensures err { OnErr result (TakesFront (K.held sink.old) (K.held sink.new) bytes.now) }
    ensures cause { IsErrOf result SinkFault.Failed → Rose (K.faults sink.old) (K.faults sink.new) }
    ensures quiet { OnOk result (K.faults sink.new ≡ K.faults sink.old) }
    ensures wanting { IsErrOf result SinkFault.NoMemory → K.faults sink.new ≡ K.faults sink.old }
{
    let mut at = 0;
    'writes: while at < bytes.len() {
        at += sink.write(&bytes[at..])?;
    }
    Ok(())
}
