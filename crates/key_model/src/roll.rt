//! Rolls bytes and numbers into a hash.
#![tactic(auto, unfolding(crate::specs::Rolled::rolled_byte))]

ghost use Rattle.std.specs.Prelude.{◌≡◌};
ghost use Rattle.std.specs.Fmt.{decimal, signed_decimal};
ghost use Rattle.key_model.specs.Rolled.{rolled_byte, rolled};

use itoa::Buffer;

fn roll_byte(sum: u32, byte: u8) -> u32
    ensures { result ≡ rolled_byte sum byte }
{
    sum.wrapping_mul(37).wrapping_add(u32::from(byte))
}

/// Rolls a text into the hash.
pub fn roll(out: &mut u32, text: &[u8])
    ensures { out.new ≡ rolled out.old text.now }
{
    for byte in text {
        *out = roll_byte(*out, *byte);
    }
}

/// Rolls a number in decimal into the hash.
pub fn roll_number(out: &mut u32, number: u64)
    ensures { out.new ≡ rolled out.old (decimal number) }
{
    let mut digits = Buffer::new();
    roll(out, digits.format(number).as_bytes());
}

/// Rolls a signed number in decimal into the hash.
pub fn roll_signed(out: &mut u32, number: i64)
    ensures { out.new ≡ rolled out.old (signed_decimal number) }
{
    let mut digits = Buffer::new();
    roll(out, digits.format(number).as_bytes());
}
