//! The shards of keys, against shards that were computed by hand from their texts.

use key_model::{Key, key_bytes, shard_of};
use std::alloc::Global;
use std::process::Abort;
use std::test::Fail;
use tree_model::{AttrTree, Bytes, NoMemory, TypeTree, one};

fn shows(
    rt: &impl Abort,
    alloc: Global,
    key: &Key,
    text: &[u8],
    shard: u32,
) -> Result<(), NoMemory> {
    let bytes = key_bytes(alloc, key)?;
    assert_eq!(rt; bytes.as_slice(), text);
    assert_eq!(rt; shard_of(key, 16), shard);
    Ok(())
}

fn shows_types(rt: &impl Abort, alloc: Global) -> Result<(), NoMemory> {
    shows(rt, alloc, &Key::OfType(TypeTree::Int(32)), b"ti32", 6)?;
    shows(rt, alloc, &Key::OfType(TypeTree::Int(27)), b"ti27", 6)?;
    shows(rt, alloc, &Key::OfType(TypeTree::Int(58)), b"ti58", 6)?;
    shows(rt, alloc, &Key::OfType(TypeTree::Int(64)), b"ti64", 7)
}

fn shows_attrs(rt: &impl Abort, alloc: Global) -> Result<(), NoMemory> {
    let number = AttrTree::Int(11, TypeTree::Int(32));
    shows(rt, alloc, &Key::OfAttr(number), b"a11 : i32", 3)?;
    let name = AttrTree::Str(Bytes::from_slice(alloc, b"f0")?);
    shows(rt, alloc, &Key::OfAttr(name), b"a\"f0\"", 3)?;
    let mut inputs = one(alloc, TypeTree::Int(32))?;
    inputs.push(TypeTree::Int(32))?;
    let function = TypeTree::Func(inputs, one(alloc, TypeTree::Int(32))?);
    let key = Key::OfAttr(AttrTree::OfType(function));
    shows(rt, alloc, &key, b"a(i32, i32) -> i32", 11)
}

#[test]
fn keys_have_the_shards_of_their_texts(rt: HostRuntime) -> Result<(), Fail> {
    let alloc = rt.alloc();
    shows_types(&rt, alloc)?;
    shows_attrs(&rt, alloc)?;
    Ok(())
}
