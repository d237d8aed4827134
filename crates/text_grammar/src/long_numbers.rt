//! Whether a number is above 2^128 - 1.

ghost use Rattle.std.specs.Prelude.{◌≡◌, ◌≤◌, ◌<◌, ◌+◌, ◌*◌, ◌^◌};
ghost use Rattle.text_grammar.specs.TokenKinds.{are_long, digit_value, is_long, is_long_number};

use crate::kinds::Kind;

/// Whether a word of this kind with these bytes is a number above 2^128 - 1.
#[tactic(auto, unfolding(crate::specs::TokenKinds::is_long))]
pub fn is_long(kind: Kind, piece: &[u8]) -> bool
    ensures { result ≡ is_long kind piece.now }
{
    match kind {
        Kind::Number => is_long_number(piece),
        Kind::HashNumber => {
            let (_, digits) = piece.split_at(piece.len().min(1));
            are_long(10, digits)
        }
        Kind::Dimension => are_long(10, piece),
        _ => false,
    }
}

#[tactic(auto, unfolding(crate::specs::TokenKinds::is_long_number))]
fn is_long_number(piece: &[u8]) -> bool
    ensures { result ≡ is_long_number piece.now }
{
    match piece {
        [a, b, digits @ ..] => {
            if *a == b'0' && *b == b'x' {
                are_long(16, digits)
            } else {
                are_long(10, piece)
            }
        }
        _ => are_long(10, piece),
    }
}

/// Whether these digits are a number above 2^128 - 1.
#[tactic(auto, unfolding(crate::specs::TokenKinds::are_long))]
fn are_long(base: u8, digits: &[u8]) -> bool
    requires { 1 ≤ base }
    ensures { result ≡ are_long base digits.now }
{
    let mut value: u128 = 0;
    for digit in digits {
        let Some(shifted) = value.checked_mul(base as u128) else {
            return true;
        };
        let Some(sum) = shifted.checked_add(digit_value(*digit) as u128) else {
            return true;
        };
        value = sum;
    }
    false
}

fn digit_value(b: u8) -> u8
    ensures { result ≡ digit_value b }
{
    if b <= b'9' {
        b.saturating_sub(48)
    } else if b <= b'F' {
        b.saturating_sub(55)
    } else {
        b.saturating_sub(87)
    }
}
