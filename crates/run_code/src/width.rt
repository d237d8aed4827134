//! Widths of integers.

ghost use Rattle.std.specs.Prelude.{◌≡◌, ℕ, ◌≤◌, ◌<◌, MatchOption, ◌⊎◌};
ghost use Rattle.operation_model.specs.Straight as straight;

/// The number of bits of an integer, from 1 to 64.
#[derive(Clone, Copy, PartialEq, Eq, Debug)]
pub struct Width {
    pub bits: u32,
    ghost one: { 1 ≤ bits },
    ghost most: { bits ≤ 64 },
}

/// The width of so many bits. None where they are none or more than 64.
pub fn width_of(bits: u32) -> Option<Width>
    ensures { MatchOption result ((bits ≡ 0) ⊎ (64 < bits)) (λ w. w.bits ≡ bits) }
{
    if bits == 0 || bits > 64 {
        None
    } else {
        Some(Width { bits })
    }
}

/// The width of 64 bits.
pub fn full_width() -> Width
    ensures { result.bits ≡ 64 }
{
    Width { bits: 64 }
}

/// The number of bytes of an integer of this width.
pub fn byte_size(w: Width) -> u64
    ensures value { result ≡ straight.byte_size w.bits }
    ensures small { result ≤ 8 }
{
    if w.bits <= 8 {
        1
    } else if w.bits <= 16 {
        2
    } else if w.bits <= 32 {
        4
    } else {
        8
    }
}
