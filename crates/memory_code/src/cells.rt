//! Numbered cells, of which none is used again.

ghost use Rattle.std.specs.Prelude.{◌≡◌, ℕ, ◌≤◌, ◌<◌, ◌*◌, ◌^◌, min, IfOk, length};
ghost use Rattle.std.specs.List.{list_any, position_from};
ghost use Rattle.meaning_model.specs.Buffers.{positive_multiple};
ghost use Rattle.meaning_model.specs.Cells as model;
ghost use Rattle.memory_code.specs.CellsStand.{allocation_of, IsCells};

use crate::bytes::{ByteMap, no_bytes, number_from, put_number};
use crate::memory::Memory;
use crate::sizes::in_width;
use number_code::unsigned;
use run_code::{Width, byte_size};
use std::alloc::{AllocError, Global};
use std::collections::VecDeque;
use value_code::{Looked, Place};

/// An allocation: its first cell, its number of cells, and whether it is live.
#[derive(Clone, Copy, PartialEq, Eq, Debug)]
pub struct Allocation {
    pub start: u64,
    pub size: u64,
    pub is_live: bool,
}

/// So many cells, the bytes that are set, the allocations, the newest first, and the first free cell.
#[derive(Drop)]
pub struct Cells {
    pub room: u64,
    pub bytes: ByteMap,
    pub allocations: VecDeque<Allocation>,
    pub free: u64,
}

/// Cells of which none is in use.
pub fn free_cells(alloc: Global, room: u64) -> Cells
    ensures { IsCells result (model.no_cells room) }
{
    Cells {
        room,
        bytes: no_bytes(alloc),
        allocations: VecDeque::new(alloc),
        free: 0,
    }
}

/// Whether so many cells from a number on lie in a live allocation.
fn covers(count: u64, start: u64, a: &Allocation) -> bool
    ensures { result ≡ model.covers count start (allocation_of a.now) }
{
    a.is_live
        && a.start <= start
        && start as u128 + count as u128 <= a.start as u128 + a.size as u128
}

/// Whether a live allocation begins there.
fn begins(start: u64, a: &Allocation) -> bool
    ensures { result ≡ model.begins_at start (allocation_of a.now) }
{
    a.is_live && a.start == start
}

/// Whether so many cells lie in one of the live allocations.
fn is_covered(count: u64, start: u64, all: &VecDeque<Allocation>) -> bool
    ensures { result ≡ list_any (λ a. model.covers count start (allocation_of a)) all.now.items }
{
    all.iter().any(|a| covers(count, start, a))
}

/// The newest live allocation that begins there.
fn newest(start: u64, all: &VecDeque<Allocation>) -> Option<usize>
    ensures { result ≡ position_from (λ a. model.begins_at start (allocation_of a)) 0 all.now.items }
{
    all.iter().position(|a| begins(start, a))
}

/// The first multiple of the alignment from a cell on.
fn aligned(alignment: u64, free: u64) -> u128
    ensures value { result ≡ model.aligned alignment free }
    ensures small { result < 2 ^ 65 }
{
    if alignment == 0 {
        0
    } else {
        alignment as u128 * (free as u128).div_ceil(alignment as u128)
    }
}

/// A number of bytes rounded up to a positive multiple of 16.
fn rounded(n: u128) -> u128
    requires { n ≤ 2 ^ 65 }
    ensures value { result ≡ positive_multiple 16 n }
    ensures small { result ≤ 2 ^ 66 }
{
    16 * n.div_ceil(16).max(1)
}

impl Memory for Cells {
    ghost use Rattle.meaning_model.specs.Cells as model;
    ghost use Rattle.memory_code.specs.CellsStand.{IsCells};

    ghost State = { model.Cells };

    ghost ask = { model.ask_cells };

    ghost Stands = { IsCells };

    fn load(&self, w: Width, p: Place) -> Looked<u64> {
        let count = byte_size(w);
        if is_covered(count, p.offset, &self.allocations) {
            in_width(w, number_from(&self.bytes, count, p.offset as u128))
        } else {
            Looked::Undefined
        }
    }

    fn store(&mut self, w: Width, n: u64, p: Place) -> Result<bool, AllocError> {
        let count = byte_size(w);
        if !is_covered(count, p.offset, &self.allocations) {
            return Ok(false);
        }
        put_number(
            &mut self.bytes,
            count,
            p.offset as u128,
            unsigned(w.bits, n),
        )?;
        Ok(true)
    }

    fn allocate(&mut self, alignment: u64, n: u128) -> Result<Option<Place>, AllocError> {
        let start = aligned(alignment, self.free);
        if n > self.room as u128 {
            return Ok(None);
        }
        let end = start + rounded(n);
        if end > self.room as u128 {
            return Ok(None);
        }
        self.allocations.push_front(Allocation {
            start: start as u64,
            size: n as u64,
            is_live: true,
        })?;
        self.free = end as u64;
        Ok(Some(Place {
            buffer: 0,
            offset: start as u64,
        }))
    }

    fn free(&mut self, p: Place) -> bool {
        match newest(p.offset, &self.allocations) {
            Some(i) => {
                self.allocations[i].is_live = false;
                true
            }
            None => false,
        }
    }
}
