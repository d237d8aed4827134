//! Memrefs whose sizes are told.

ghost use Rattle.std.specs.Prelude.{◌≡◌, ℕ, pos};
ghost use Rattle.number_model.specs.Answers.{Answer, Gives, and_then};
ghost use Rattle.std.specs.Ordering.{int_eq};
ghost use Rattle.number_model.specs.Numbers as numbers;
ghost use Rattle.operation_model.specs.Values as values;
ghost use Rattle.operation_model.specs.Pures as model;
ghost use Rattle.value_code.specs.Models.{value_of};
ghost use Rattle.compute_code.specs.Given.{cast_of, size_answer};

use number_code::signed;
use run_code::Width;
use value_code::{Looked, Value, number, part_at};

/// Whether the size of a memref at a dimension is the one that is fixed there.
fn is_size(bits: Width, n: u64, i: u64, m: &Value) -> Looked<bool>
    ensures { size_answer result ≡ and_then (values.part_at (values.size_path i) (value_of m.now)) (λ size. and_then (values.number size) (λ a. Gives (int_eq (numbers.signed bits.bits a) (pos n)))) }
{
    match part_at(&[3, i], m) {
        Some(size) => match number(size) {
            Looked::Gives(a) => Looked::Gives(signed(bits.bits, a) == n as i128),
            Looked::Undefined => Looked::Undefined,
            Looked::Outside => Looked::Outside,
        },
        None => Looked::Outside,
    }
}

/// Looks whether each size of a memref is the one that is fixed there.
pub fn has_sizes(bits: Width, fixed: &[Option<u64>], m: &Value) -> Looked<()>
    ensures { cast_of result (value_of m.now) ≡ model.check_sizes bits.bits fixed.now 0 (value_of m.now) }
{
    for i in 0..fixed.len() {
        if let Some(n) = fixed[i] {
            match is_size(bits, n, i as u64, m) {
                Looked::Gives(true) => {}
                Looked::Gives(false) | Looked::Undefined => return Looked::Undefined,
                Looked::Outside => return Looked::Outside,
            }
        }
    }
    Looked::Gives(())
}
