//! Numbers of a width, read as unsigned and as signed ones.

ghost use Rattle.std.specs.Prelude.{◌≡◌, ℕ, ◌^◌, ◌≤◌, unsigned_abs};
ghost use Rattle.number_model.specs.Numbers as numbers;

/// 2 to the width.
pub fn modulus(w: u32) -> u128
    requires { w ≤ 64 }
    ensures { result ≡ 2 ^ w }
{
    1 << w
}

/// As an unsigned number.
pub fn unsigned(w: u32, a: u64) -> u64
    requires { w ≤ 64 }
    ensures { result ≡ numbers.unsigned w a }
{
    (a as u128 % modulus(w)) as u64
}

/// As a signed number.
pub fn signed(w: u32, a: u64) -> i128
    requires low { 1 ≤ w }
    requires high { w ≤ 64 }
    ensures value { result ≡ numbers.signed w a }
    ensures small { unsigned_abs result ≤ 2 ^ 63 }
{
    let number = unsigned(w, a) as u128;
    if number < modulus(w - 1) {
        number as i128
    } else {
        -1 - (modulus(w) - 1 - number) as i128
    }
}

/// An integer modulo 2 to the width.
pub fn wrapped(w: u32, z: i128) -> u64
    requires { w ≤ 64 }
    ensures { result ≡ numbers.wrapped w z }
{
    if z < 0 {
        (modulus(w) - 1 - (-1 - z) as u128 % modulus(w)) as u64
    } else {
        (z as u128 % modulus(w)) as u64
    }
}

/// Whether an integer is a signed number of the width.
pub fn fits_signed(w: u32, z: i128) -> bool
    requires low { 1 ≤ w }
    requires high { w ≤ 64 }
    ensures { result ≡ numbers.fits_signed w z }
{
    let magnitude = if z < 0 { -1 - z } else { z };
    (magnitude as u128) < modulus(w - 1)
}

/// Whether an integer is an unsigned number of the width.
pub fn fits_unsigned(w: u32, z: i128) -> bool
    requires { w ≤ 64 }
    ensures { result ≡ numbers.fits_unsigned w z }
{
    z >= 0 && (z as u128) < modulus(w)
}
