//! Prints strings and names.
#![tactic(auto, using(crate::proofs::GrewLaws::grew_laws))]

ghost use Rattle.std.specs.Prelude.{◌≡◌, ◌<◌, ◌++◌, OnOk, OnErr, flat_map};
ghost use Rattle.tree_text.specs.Grew.{Grew};
ghost use Rattle.tree_text.specs.NameText.{hex_digit, stands_plain, byte_text, string_text, name_text};

use crate::grow::add;
use mlir_lex::is_bare;
use tree_model::{Bytes, NoMemory};

fn hex_digit(n: u8) -> u8
    requires { n < 16 }
    ensures { result ≡ hex_digit n }
{
    if n < 10 { 48 + n } else { 55 + n }
}

fn stands_plain(b: u8) -> bool
    ensures { result ≡ stands_plain b }
{
    32 <= b && b <= 126 && b != b'"'
}

fn add_string_byte(out: &mut Bytes, b: u8) -> Result<(), NoMemory>
    ensures ok { OnOk result (out.new ≡ out.old ++ byte_text b) }
    ensures grew { Grew out.old out.new }
{
    if b == b'\\' {
        return add(out, b"\\\\");
    }
    if stands_plain(b) {
        return add(out, &[b]);
    }
    add(out, &[b'\\', hex_digit(b / 16), hex_digit(b % 16)])
}

fn add_string_bytes(out: &mut Bytes, bytes: &[u8]) -> Result<(), NoMemory>
    ensures ok { OnOk result (out.new ≡ out.old ++ flat_map byte_text bytes.now) }
    ensures grew { Grew out.old out.new }
{
    for b in bytes {
        add_string_byte(out, *b)?;
    }
    Ok(())
}

pub fn add_string(out: &mut Bytes, bytes: &[u8]) -> Result<(), NoMemory>
    ensures ok { OnOk result (out.new ≡ out.old ++ string_text bytes.now) }
    ensures grew { Grew out.old out.new }
{
    add(out, b"\"")?;
    add_string_bytes(out, bytes)?;
    add(out, b"\"")
}

pub fn add_name(out: &mut Bytes, name: &[u8]) -> Result<(), NoMemory>
    ensures ok { OnOk result (out.new ≡ out.old ++ name_text name.now) }
    ensures grew { Grew out.old out.new }
{
    if is_bare(name) {
        return add(out, name);
    }
    add_string(out, name)
}

/// Appends a text as a string.
pub fn put_string(out: &mut Bytes, bytes: &[u8]) -> Result<(), NoMemory>
    ensures ok { OnOk result (out.new ≡ out.old ++ string_text bytes.now) }
    ensures err { OnErr result (out.new ≡ out.old) }
{
    let len = out.len();
    if let Err(fault) = add_string(out, bytes) {
        out.truncate(len);
        return Err(fault);
    }
    Ok(())
}

/// Appends a name: itself where it is a bare identifier, else as a string.
pub fn put_name(out: &mut Bytes, name: &[u8]) -> Result<(), NoMemory>
    ensures ok { OnOk result (out.new ≡ out.old ++ name_text name.now) }
    ensures err { OnErr result (out.new ≡ out.old) }
{
    if is_bare(name) {
        return out.put(name);
    }
    put_string(out, name)
}
