//! The classes of bytes.

ghost use Rattle.std.specs.Prelude.{◌≡◌, ◌==◌, ◌&&◌, not, ℕ};
ghost use Rattle.std.specs.List.{list_all};
ghost use Rattle.mlir_lex.specs.Bytes.{is_bare, is_bare_byte, is_blank, is_digit, is_hex_digit, is_letter, is_on_line, is_plain, is_short_escape, is_sign, is_suffix_byte, starts_bare, starts_suffix};

#[tactic(auto, unfolding(crate::specs::Bytes::is_blank))]
pub fn is_blank(b: u8) -> bool
    ensures { result ≡ is_blank b }
{
    b == b' ' || b == b'\t' || b == b'\r' || b == b'\n'
}

#[tactic(auto, unfolding(crate::specs::Bytes::is_on_line))]
pub fn is_on_line(b: u8) -> bool
    ensures { result ≡ is_on_line b }
{
    b != b'\n'
}

/// A digit of ASCII.
#[tactic(auto, unfolding(crate::specs::Bytes::is_digit))]
pub fn is_digit(b: u8) -> bool
    ensures { result ≡ is_digit b }
{
    b >= b'0' && b <= b'9'
}

#[tactic(auto, unfolding(crate::specs::Bytes::is_hex_digit))]
pub fn is_hex_digit(b: u8) -> bool
    ensures { result ≡ is_hex_digit b }
{
    is_digit(b) || (b >= b'A' && b <= b'F') || (b >= b'a' && b <= b'f')
}

#[tactic(auto, unfolding(crate::specs::Bytes::is_letter))]
fn is_letter(b: u8) -> bool
    ensures { result ≡ is_letter b }
{
    (b >= b'a' && b <= b'z') || (b >= b'A' && b <= b'Z')
}

/// What a bare identifier begins with.
#[tactic(auto, unfolding(crate::specs::Bytes::starts_bare))]
pub fn starts_bare(b: u8) -> bool
    ensures { result ≡ starts_bare b }
{
    is_letter(b) || b == b'_'
}

/// What stands in a bare identifier.
#[tactic(auto, unfolding(crate::specs::Bytes::is_bare_byte))]
pub fn is_bare_byte(b: u8) -> bool
    ensures { result ≡ is_bare_byte b }
{
    is_letter(b) || is_digit(b) || b == b'_' || b == b'$' || b == b'.'
}

/// Whether the text is a bare identifier.
pub fn is_bare(name: &[u8]) -> bool
    ensures { result ≡ is_bare name.now }
{
    match name {
        [first, others @ ..] => starts_bare(*first) && are_bare_bytes(others),
        [] => false,
    }
}

fn are_bare_bytes(bytes: &[u8]) -> bool
    ensures { result ≡ list_all is_bare_byte bytes.now }
{
    bytes.iter().all(|b| is_bare_byte(*b))
}

#[tactic(auto, unfolding(crate::specs::Bytes::starts_suffix))]
pub fn starts_suffix(b: u8) -> bool
    ensures { result ≡ starts_suffix b }
{
    is_letter(b) || b == b'_' || b == b'$' || b == b'.' || b == b'-'
}

#[tactic(auto, unfolding(crate::specs::Bytes::is_suffix_byte))]
pub fn is_suffix_byte(b: u8) -> bool
    ensures { result ≡ is_suffix_byte b }
{
    starts_suffix(b) || is_digit(b)
}

#[tactic(auto, unfolding(crate::specs::Bytes::is_plain))]
pub fn is_plain(b: u8) -> bool
    ensures { result ≡ is_plain b }
{
    is_on_line(b) && b != b'"' && b != b'\\'
}

#[tactic(auto, unfolding(crate::specs::Bytes::is_short_escape))]
pub fn is_short_escape(b: u8) -> bool
    ensures { result ≡ is_short_escape b }
{
    b == b'n' || b == b't' || b == b'\\' || b == b'"'
}

#[tactic(auto, unfolding(crate::specs::Bytes::is_sign))]
pub fn is_sign(b: u8) -> bool
    ensures { result ≡ is_sign b }
{
    b == b'('
        || b == b')'
        || b == b'['
        || b == b']'
        || b == b'{'
        || b == b'}'
        || b == b'<'
        || b == b'>'
        || b == b','
        || b == b':'
        || b == b'='
        || b == b'?'
        || b == b'-'
}
