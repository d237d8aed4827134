//! The calls of a shard's table.

use intern_api::ShardTable;
use key_model::{Entry, Head, same_entry};
use sqlite_items::Items;
use std::alloc::Global;
use std::test::Fail;

fn index_entry(alloc: Global) -> Entry {
    Entry {
        head: Head::TIndex,
        children: Items::new(alloc),
    }
}

/// Whether the entry is put at the first place.
fn appends(table: &mut ShardTable, entry: Entry) -> bool {
    match table.find(&entry) {
        Some(_) => false,
        None => match table.append(entry) {
            Ok(handle) => handle.place() == 0,
            Err(_) => false,
        },
    }
}

/// Whether the entry is found, and read again.
fn shows(alloc: Global, table: &ShardTable, entry: &Entry) -> bool {
    match table.find(entry) {
        Some(handle) => match table.entry_at(alloc, handle) {
            Ok(found) => same_entry(&found, entry),
            Err(_) => false,
        },
        None => false,
    }
}

#[test]
fn a_table_finds_what_was_appended(rt: HostRuntime) -> Result<(), Fail> {
    let mut table = ShardTable::new(rt.alloc(), 3, 16, None);
    assert!(rt; appends(&mut table, index_entry(rt.alloc())));
    assert_eq!(rt; table.len(), 1);
    let entry = index_entry(rt.alloc());
    assert!(rt; shows(rt.alloc(), &table, &entry));
    Ok(())
}
