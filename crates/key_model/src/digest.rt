//! The digest of an entry.
#![tactic(auto, unfolding(crate::specs::Digest::mixed))]

ghost use Rattle.std.specs.Prelude.{◌≡◌, fold};
ghost use Rattle.key_model.specs.Digest.{mixed, mixed_all, mixed_dim, mixed_signed, mixed_name, mixed_handle, head_digest, entry_digest};

use crate::entry::{Entry, Head};
use crate::handle::Handle;
use tree_model::{Dim, Name};

fn mix(sum: u64, number: u64) -> u64
    ensures { result ≡ mixed sum number }
{
    sum.wrapping_mul(11400714819323198485).wrapping_add(number)
}

fn mix_bytes(sum: u64, bytes: &[u8]) -> u64
    ensures { result ≡ mixed_all sum bytes.now }
{
    let mut all = sum;
    for byte in bytes {
        all = mix(all, u64::from(*byte));
    }
    all
}

fn mix_dim(sum: u64, dim: Dim) -> u64
    ensures { result ≡ mixed_dim sum dim }
{
    match dim {
        Dim::Fixed(n) => mix(mix(sum, 1), n),
        Dim::Dynamic => mix(sum, 2),
    }
}

fn mix_dims(sum: u64, dims: &[Dim]) -> u64
    ensures { result ≡ fold mixed_dim sum dims.now }
{
    let mut all = sum;
    for dim in dims {
        all = mix_dim(all, *dim);
    }
    all
}

fn mix_signed(sum: u64, number: i64) -> u64
    ensures { result ≡ mixed_signed sum number }
{
    mix(sum, number.cast_unsigned())
}

fn mix_numbers(sum: u64, numbers: &[i64]) -> u64
    ensures { result ≡ fold mixed_signed sum numbers.now }
{
    let mut all = sum;
    for number in numbers {
        all = mix_signed(all, *number);
    }
    all
}

fn mix_name(sum: u64, name: &Name) -> u64
    ensures { result ≡ mixed_name sum name.now }
{
    mix_bytes(mix(sum, 256), name.as_slice())
}

fn mix_names(sum: u64, names: &[Name]) -> u64
    ensures { result ≡ fold mixed_name sum names.now }
{
    let mut all = sum;
    for name in names {
        all = mix_name(all, name);
    }
    all
}

fn mix_handle(sum: u64, handle: Handle) -> u64
    ensures { result ≡ mixed_handle sum handle }
{
    mix(sum, u64::from(handle.shard()) * 4294967296 + handle.place())
}

fn mix_handles(sum: u64, handles: &[Handle]) -> u64
    ensures { result ≡ fold mixed_handle sum handles.now }
{
    let mut all = sum;
    for handle in handles {
        all = mix_handle(all, *handle);
    }
    all
}

fn digest_of_head(head: &Head) -> u64
    ensures { result ≡ head_digest head.now }
{
    match head {
        Head::TInt(width) => mix(1, u64::from(*width)),
        Head::TIndex => 2,
        Head::TMemref(dims) => mix_dims(3, dims.as_slice()),
        Head::TFunc(inputs) => mix(4, u64::from(*inputs)),
        Head::TPtr => 5,
        Head::TVoid => 6,
        Head::TStruct => 7,
        Head::TArray(n) => mix(8, *n),
        Head::TLlvmFunc => 9,
        Head::Unit => 10,
        Head::Int(value) => mix_signed(11, *value),
        Head::Str(text) => mix_bytes(12, text.as_slice()),
        Head::List => 13,
        Head::Dict(names) => mix_names(14, names.as_slice()),
        Head::OfType => 15,
        Head::Symbol(name) => mix_bytes(16, name.as_slice()),
        Head::Ints(width, numbers) => mix_numbers(mix(17, u64::from(*width)), numbers.as_slice()),
        Head::Dialect(name, words) => mix_names(mix_name(18, name), words.as_slice()),
    }
}

/// The digest of an entry.
pub fn digest_of(entry: &Entry) -> u64
    ensures { result ≡ entry_digest entry.now }
{
    mix_handles(digest_of_head(&entry.head), entry.children.as_slice())
}
