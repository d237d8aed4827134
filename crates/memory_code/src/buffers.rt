//! Buffers, each with its own bytes.

ghost use Rattle.std.specs.Prelude.{◌≡◌, ℕ, ◌≤◌, ◌^◌, ◌==◌, ◌&&◌, min, IfOk, length};
ghost use Rattle.meaning_model.specs.Buffers as model;
ghost use Rattle.memory_code.specs.Stands.{reply_of, IsBuffer, IsHeap};

use crate::bytes::{ByteMap, no_bytes, number_from, put_number};
use crate::memory::Memory;
use crate::sizes::in_width;
use number_code::unsigned;
use run_code::{Width, byte_size};
use sqlite_items::at;
use std::alloc::{AllocError, Global};
use value_code::{Looked, Place};

/// A buffer: its size up to 2 to the 65, whether it is live, and its bytes.
#[derive(Drop)]
pub struct Buffer {
    pub size: u128,
    pub is_live: bool,
    pub bytes: ByteMap,
}

/// The buffers by their numbers.
#[derive(Drop)]
pub struct Buffers {
    pub alloc: Global,
    pub buffers: Vec<Buffer>,
}

/// No buffer yet.
pub fn no_buffers(alloc: Global) -> Buffers
    ensures { IsHeap result model.no_heap }
{
    Buffers {
        alloc,
        buffers: Vec::new(alloc),
    }
}

/// Whether so many bytes from an offset on lie in a live buffer.
fn holds(count: u64, offset: u64, b: &Buffer) -> bool
    requires { count ≤ 8 }
    ensures { (of : model.Buffer) → IsBuffer b.now of → result ≡ model.holds count offset of }
{
    b.is_live && offset as u128 + count as u128 <= b.size
}

/// Whether a live buffer begins at an offset of a buffer.
fn begins(offset: u64, b: &Buffer) -> bool
    ensures { (of : model.Buffer) → IsBuffer b.now of → result ≡ (of.is_live && (offset == 0)) }
{
    b.is_live && offset == 0
}

/// The integer of a width at an offset of a buffer.
fn read(w: Width, offset: u64, b: &Buffer) -> Looked<u64>
    ensures { (of : model.Buffer) → IsBuffer b.now of → (h : model.Heap) → reply_of result h ≡ model.load_from w.bits offset (Some of) h }
{
    let count = byte_size(w);
    if holds(count, offset, b) {
        in_width(w, number_from(&b.bytes, count, offset as u128))
    } else {
        Looked::Undefined
    }
}

impl Memory for Buffers {
    ghost use Rattle.meaning_model.specs.Buffers.{Heap, ask_heap};
    ghost use Rattle.memory_code.specs.Stands.{IsHeap};

    ghost State = { Heap };

    ghost ask = { ask_heap };

    ghost Stands = { IsHeap };

    fn load(&self, w: Width, p: Place) -> Looked<u64> {
        match at(self.buffers.as_slice(), p.buffer as usize) {
            Some(b) => read(w, p.offset, b),
            None => Looked::Undefined,
        }
    }

    fn store(&mut self, w: Width, n: u64, p: Place) -> Result<bool, AllocError> {
        let i = p.buffer as usize;
        let count = byte_size(w);
        if i >= self.buffers.len() {
            return Ok(false);
        }
        if !holds(count, p.offset, &self.buffers[i]) {
            return Ok(false);
        }
        put_number(
            &mut self.buffers[i].bytes,
            count,
            p.offset as u128,
            unsigned(w.bits, n),
        )?;
        Ok(true)
    }

    fn allocate(&mut self, _alignment: u64, n: u128) -> Result<Option<Place>, AllocError> {
        let buffer = self.buffers.len() as u64;
        self.buffers.push(Buffer {
            size: n,
            is_live: true,
            bytes: no_bytes(self.alloc),
        })?;
        Ok(Some(Place { buffer, offset: 0 }))
    }

    fn free(&mut self, p: Place) -> bool {
        let i = p.buffer as usize;
        if i >= self.buffers.len() {
            return false;
        }
        if !begins(p.offset, &self.buffers[i]) {
            return false;
        }
        self.buffers[i].is_live = false;
        true
    }
}
