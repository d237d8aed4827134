//! Rolls the printed text of strings and names into a hash.
#![tactic(auto)]

ghost use Rattle.std.specs.Prelude.{◌≡◌, ◌<◌, ◌++◌, flat_map};
ghost use Rattle.tree_text.specs.NameText.{hex_digit, stands_plain, byte_text, string_text, name_text};
ghost use Rattle.key_model.specs.Rolled.{rolled};

use crate::roll::roll;
use mlir_lex::is_bare;

fn hex_digit(n: u8) -> u8
    requires { n < 16 }
    ensures { result ≡ hex_digit n }
{
    if n < 10 { 48 + n } else { 55 + n }
}

fn stands_plain(b: u8) -> bool
    ensures { result ≡ stands_plain b }
{
    32 <= b && b <= 126 && b != b'"'
}

fn roll_string_byte(out: &mut u32, b: u8)
    ensures { out.new ≡ rolled out.old (byte_text b) }
{
    if b == b'\\' {
        roll(out, b"\\\\");
        return;
    }
    if stands_plain(b) {
        roll(out, &[b]);
        return;
    }
    roll(out, &[b'\\', hex_digit(b / 16), hex_digit(b % 16)]);
}

fn roll_string_bytes(out: &mut u32, bytes: &[u8])
    ensures { out.new ≡ rolled out.old (flat_map byte_text bytes.now) }
{
    for b in bytes {
        roll_string_byte(out, *b);
    }
}

pub fn roll_string(out: &mut u32, bytes: &[u8])
    ensures { out.new ≡ rolled out.old (string_text bytes.now) }
{
    roll(out, b"\"");
    roll_string_bytes(out, bytes);
    roll(out, b"\"");
}

pub fn roll_name(out: &mut u32, name: &[u8])
    ensures { out.new ≡ rolled out.old (name_text name.now) }
{
    if is_bare(name) {
        roll(out, name);
        return;
    }
    roll_string(out, name);
}
