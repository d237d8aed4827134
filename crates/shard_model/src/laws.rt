//! Laws of the lists of keys, each the contract of a function that does nothing.

ghost use Rattle.shard_model.specs.Promises.{AppendKeepsLists, AppendKeepsParts, AppendKeepsTables, EntriesStay, FindsExactly, KeysStay, OneEntry, OneHandle, OneKey, StandsAtPlace, TablesStay};

/// A key stands at one handle and has one entry, and an entry has one key.
pub fn law_one_handle()
    ensures handle { OneHandle }
    ensures entry { OneEntry }
    ensures key { OneKey }
{}

/// While lists grow, each handle keeps its key, each entry stands for its key, and each table for its list.
pub fn law_keys_stay()
    ensures keys { KeysStay }
    ensures entries { EntriesStay }
    ensures tables { TablesStay }
{}

/// A new key of the shard, where there is room for it, leaves the list one in which no key stands twice; and its entry
/// behind the others leaves the table one that stands for the list.
pub fn law_append_keeps_lists()
    ensures list { AppendKeepsLists }
    ensures table { AppendKeepsTables }
{}

/// A key whose parts stand in the lists leaves them so that the parts of each key stand in them.
pub fn law_parts_stand()
    ensures { AppendKeepsParts }
{}

/// A table has the entry of a key at a place exactly where the list has the key.
pub fn law_finds_exactly()
    ensures { FindsExactly }
{}

/// Each handle of a place stands for the key at that place, part by part, in the tables that stand for the lists.
pub fn law_stands_at_place()
    ensures { StandsAtPlace }
{}
