//! Numbers kept as values of so many bits.

ghost use Rattle.std.specs.Prelude.{◌≡◌, ◌<◌, ◌≤◌, ◌^◌, ◌-◌};
ghost use Rattle.pattern_model.specs.Drafts.{read_signed as signed, wrapped as kept};

/// A number of at most 63 bits, read as signed.
fn read_signed(bits: u32, number: u64) -> i64
    requires some { 0 < bits }
    requires few { bits ≤ 63 }
    requires within { number < 2 ^ bits }
    ensures { result ≡ signed bits number }
{
    let half = 1u64 << (bits - 1);
    if number < half {
        number as i64
    } else {
        -(((1u64 << bits) - number) as i64)
    }
}

// The number in its lowest bits.
fn lowest(bits: u32, number: i64) -> i64
    requires some { 0 < bits }
    requires few { bits ≤ 63 }
    ensures { result ≡ kept bits number }
{
    let end = 1u64 << bits;
    if number >= 0 {
        read_signed(bits, number as u64 % end)
    } else {
        let below = (-(number + 1)) as u64;
        read_signed(bits, end - 1 - below % end)
    }
}

/// A number that is kept as a value of so many bits, read as signed.
pub fn wrapped(bits: u32, number: i64) -> i64
    ensures { result ≡ kept bits number }
{
    if bits == 0 {
        0
    } else if bits < 64 {
        lowest(bits, number)
    } else {
        number
    }
}
