//! Bytes by their places.

ghost use Rattle.std.specs.Prelude.{◌≡◌, ℕ, ◌+◌, ◌*◌, ◌≤◌, ◌<◌, ◌^◌, [], IfSome, OnOk};
ghost use Rattle.meaning_model.specs.Buffers.{Bytes, bytes_from, put_bytes};
ghost use Rattle.memory_code.specs.Stands.{HoldsBytes};

use std::alloc::{AllocError, Global};
use std::collections::HashMap;

/// The bytes that are set, by their places.
#[derive(Drop)]
pub struct ByteMap {
    pub bytes: HashMap<u128, u8>,
}

/// No byte is set.
pub fn no_bytes(alloc: Global) -> ByteMap
    ensures { HoldsBytes result [] }
{
    ByteMap {
        bytes: HashMap::new(alloc),
    }
}

/// The number of so many bytes from a place on, the lowest first. None where one isn't set.
pub fn number_from(map: &ByteMap, count: u64, place: u128) -> Option<u64>
    requires few { count ≤ 8 }
    requires low { place + count ≤ 2 ^ 100 }
    ensures value { (bs : Bytes) → HoldsBytes map.now bs → result ≡ bytes_from count place bs }
    ensures small { IfSome result (λ n. n < 256 ^ count) }
{
    if count == 0 {
        return Some(0);
    }
    match map.bytes.get(&place) {
        Some(low) => match number_from(map, count - 1, place + 1) {
            Some(high) => Some(joined(*low, high)),
            None => None,
        },
        None => None,
    }
}

/// The low byte before the number that the higher ones make.
fn joined(low: u8, high: u64) -> u64
    requires { high < 2 ^ 56 }
    ensures { result ≡ low + 256 * high }
{
    low as u64 + 256 * high
}

/// Puts a number to so many bytes from a place on, the lowest first.
pub fn put_number(map: &mut ByteMap, count: u64, place: u128, n: u64) -> Result<(), AllocError>
    requires few { count ≤ 8 }
    requires low { place + count ≤ 2 ^ 100 }
    ensures { OnOk result ((bs : Bytes) → HoldsBytes map.old bs → HoldsBytes map.new (put_bytes count place n bs)) }
{
    if count == 0 {
        return Ok(());
    }
    map.bytes.insert(place, (n % 256) as u8)?;
    put_number(map, count - 1, place + 1, n / 256)
}
