//! Memories.

use memory_code::{Buffers, Cells, Memory, free_cells, no_buffers};
use run_code::full_width;
use std::test::Fail;
use value_code::{Looked, Place};

// The number that is read behind a store of it, in the second of two buffers.
fn stores<M: Memory>(memory: &mut M) -> Result<Looked<u64>, Fail> {
    memory.allocate(1, 8)?;
    match memory.allocate(32, 8)? {
        Some(p) => {
            memory.store(full_width(), 1 << 40, p)?;
            Ok(memory.load(full_width(), p))
        }
        None => Ok(Looked::Outside),
    }
}

#[test]
fn what_is_stored_is_read(rt: HostRuntime) -> Result<(), Fail> {
    let mut buffers = no_buffers(rt.alloc());
    assert_eq!(rt; stores(&mut buffers)?, Looked::Gives(1 << 40));
    let mut cells = free_cells(rt.alloc(), 100);
    assert_eq!(rt; stores(&mut cells)?, Looked::Gives(1 << 40));
    Ok(())
}

#[test]
fn cells_end(rt: HostRuntime) -> Result<(), Fail> {
    let mut cells = free_cells(rt.alloc(), 20);
    assert_eq!(rt;
        cells.allocate(1, 10)?,
        Some(Place {
            buffer: 0,
            offset: 0
        })
    );
    assert_eq!(rt; cells.allocate(1, 10)?, None);
    Ok(())
}

#[test]
fn a_freed_buffer_is_dead(rt: HostRuntime) -> Result<(), Fail> {
    let mut buffers = no_buffers(rt.alloc());
    let p = Place {
        buffer: 0,
        offset: 0,
    };
    assert_eq!(rt; buffers.allocate(1, 8)?, Some(p));
    assert!(rt; buffers.store(full_width(), 7, p)?);
    assert!(rt; buffers.free(p));
    assert_eq!(rt; buffers.load(full_width(), p), Looked::Undefined);
    assert!(rt; !buffers.store(full_width(), 7, p)?);
    Ok(())
}
