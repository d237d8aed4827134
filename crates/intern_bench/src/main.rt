//! Interns so many distinct keys of a kind, and then each of them again as often as the second argument says.
//!
//! The arguments are the number of keys, the number of rounds, and the kind. Without rounds no key is kept, so that the memory
//! at the end is that of the interner.
#![tactic(auto)]

mod keys;

use crate::keys::key_of;
use intern_api::{InternFault, PlainInterner};
use key_model::Key;
use std::alloc::{AllocError, Global};
use std::io::Read;
use std::{env, io};

/// The most shards that an interner has.
const SHARDS: u32 = 16;

/// How often a key had its handle.
type Counted = Result<u64, InternFault>;

fn wanting(_fault: AllocError) -> InternFault {
    InternFault::NoMemory
}

fn add_once(interner: &mut PlainInterner, alloc: Global, keys: u32, kind: u32) -> Counted {
    let mut sum = 0u64;
    for number in 0..keys {
        let key = key_of(alloc, kind, number).map_err(wanting)?;
        sum = sum.wrapping_add(interner.intern(&key)?.place());
    }
    Ok(sum)
}

fn all_keys(alloc: Global, keys: u32, kind: u32) -> Result<Vec<Key>, AllocError> {
    let mut all = Vec::new(alloc);
    for number in 0..keys {
        all.push(key_of(alloc, kind, number)?)?;
    }
    Ok(all)
}

fn add_again(interner: &mut PlainInterner, keys: &[Key], rounds: u32) -> Counted {
    let mut sum = 0u64;
    for _ in 0..rounds {
        for key in keys {
            sum = sum.wrapping_add(interner.intern(key)?.place());
        }
    }
    Ok(sum)
}

fn work(interner: &mut PlainInterner, alloc: Global, keys: u32, rounds: u32, kind: u32) -> Counted {
    if rounds == 0 {
        return add_once(interner, alloc, keys, kind);
    }
    let all = all_keys(alloc, keys, kind).map_err(wanting)?;
    add_again(interner, all.as_slice(), rounds)
}

fn main(rt: HostRuntime) -> io::Result<()> {
    let mut words = env::args(&rt)?.skip(1);
    let keys = words.next().and_then(|word| word.parse().ok()).unwrap_or(6);
    let rounds = words.next().and_then(|word| word.parse().ok()).unwrap_or(2);
    let kind = words.next().and_then(|word| word.parse().ok()).unwrap_or(3);
    let alloc = rt.alloc();
    let mut interner = PlainInterner::new(alloc, SHARDS, None)?;
    match work(&mut interner, alloc, keys, rounds, kind) {
        Ok(sum) => println!(rt; "places {sum}")?,
        Err(fault) => println!(rt; "{fault}")?,
    }
    let mut rest = Vec::new(alloc);
    rt.stdin().read_to_end(&mut rest)?;
    Ok(())
}
