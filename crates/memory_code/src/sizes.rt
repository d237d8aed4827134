//! The numbers that bytes hold.

ghost use Rattle.std.specs.Prelude.{◌≡◌};
ghost use Rattle.memory_code.specs.Stands.{read_of, loads};

use number_code::modulus;
use run_code::Width;
use value_code::Looked;

/// The number that is read, where it is one of the width.
pub fn in_width(w: Width, read: Option<u64>) -> Looked<u64>
    ensures { read_of result ≡ loads w.bits read }
{
    match read {
        Some(n) => {
            if (n as u128) < modulus(w.bits) {
                Looked::Gives(n)
            } else {
                Looked::Undefined
            }
        }
        None => Looked::Undefined,
    }
}
