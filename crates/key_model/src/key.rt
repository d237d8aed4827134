//! Keys: what a handle stands for.

ghost use Rattle.std.specs.Prelude.{◌≡◌, ◌≤◌, ◌<◌, ◌↔◌, IfOk, IsTrue};
ghost use Rattle.key_model.specs.declared.key.Key.TheVariants.{OfType, OfAttr};
ghost use Rattle.key_model.specs.Keys.{key_text, key_hash, shard_number};

use crate::roll::roll;
use crate::roll_attr::roll_attr;
use crate::roll_type::roll_type;
use std::alloc::Global;
use tree_model::{AttrTree, Bytes, NoMemory, TypeTree, copy_attr, copy_type, same_attr, same_type};
use tree_text::{put_attr, put_type};

/// A type or an attribute.
#[derive(Debug, Drop)]
pub enum Key {
    OfType(TypeTree),
    OfAttr(AttrTree),
}

/// The text of a key, which tells keys apart to a reader and gives each its shard.
pub fn key_bytes(alloc: Global, key: &Key) -> Result<Bytes, NoMemory>
    ensures { IfOk result (λ text. text ≡ key_text key.now) }
{
    let mut out = Bytes::new(alloc);
    match key {
        Key::OfType(t) => {
            out.put_byte(b't')?;
            put_type(&mut out, t)?;
            Ok(out)
        }
        Key::OfAttr(a) => {
            out.put_byte(b'a')?;
            put_attr(&mut out, a)?;
            Ok(out)
        }
    }
}

/// The hash of the text of a type's key, which is not made for it.
pub fn type_hash(t: &TypeTree) -> u32
    ensures { result ≡ key_hash (OfType t.now) }
{
    let mut sum = 0;
    roll(&mut sum, b"t");
    roll_type(&mut sum, false, t);
    sum
}

/// The hash of the text of an attribute's key.
pub fn attr_hash(a: &AttrTree) -> u32
    ensures { result ≡ key_hash (OfAttr a.now) }
{
    let mut sum = 0;
    roll(&mut sum, b"a");
    roll_attr(&mut sum, a);
    sum
}

/// The hash of a key's text.
pub fn hash_of(key: &Key) -> u32
    ensures { result ≡ key_hash key.now }
{
    match key {
        Key::OfType(t) => type_hash(t),
        Key::OfAttr(a) => attr_hash(a),
    }
}

/// The shard of a key.
pub fn shard_of(key: &Key, shards: u32) -> u32
    requires some { 0 < shards }
    requires few { shards ≤ 16 }
    ensures { result ≡ shard_number shards key.now }
{
    hash_of(key) % shards
}

/// The same key.
pub fn copy_key(alloc: Global, key: &Key) -> Result<Key, NoMemory>
    ensures { IfOk result (λ copy. copy ≡ key.now) }
{
    match key {
        Key::OfType(t) => Ok(Key::OfType(copy_type(alloc, t)?)),
        Key::OfAttr(a) => Ok(Key::OfAttr(copy_attr(alloc, a)?)),
    }
}

/// Whether two keys are one.
pub fn same_key(a: &Key, b: &Key) -> bool
    ensures { IsTrue result ↔ (a.now ≡ b.now) }
{
    match (a, b) {
        (Key::OfType(s), Key::OfType(t)) => same_type(s, t),
        (Key::OfAttr(s), Key::OfAttr(t)) => same_attr(s, t),
        _ => false,
    }
}
