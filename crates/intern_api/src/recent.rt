//! The map of handles that were given lately.
#![tactic(auto)]

ghost use Rattle.intern_api.specs.Knowing.{Remembers, Forgets};

use key_model::{Handle, Key};
use std::collections::HashMap;

/// So many keys are remembered at most. A map that holds as many is emptied before the next one.
const MOST_RECENT: usize = 4096;

fn make_room(recent: &mut HashMap<Key, Handle>)
    ensures { Forgets recent.old recent.new }
{
    if recent.len() >= MOST_RECENT {
        recent.clear();
    }
}

fn put(recent: &mut HashMap<Key, Handle>, key: Key, handle: Handle)
    ensures { Remembers recent.old recent.new key handle }
{
    let _ = recent.insert(key, handle);
}

/// Remembers the handle of a key, unless memory is wanting.
pub fn remember(recent: &mut HashMap<Key, Handle>, key: Key, handle: Handle)
    ensures { Remembers recent.old recent.new key handle }
{
    make_room(recent);
    put(recent, key, handle);
}
