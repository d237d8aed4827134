//! Values that steps hold.

ghost use Rattle.std.specs.Prelude.{◌≡◌, IfOk, IfErr};

use std::alloc::Global;
use std::marker::Model;

/// A value that a step holds: one word, so that steps are small. Contracts see the value.
#[derive(Drop)]
pub struct Held<T> {
    inner: Box<T>,
}

impl<T> Model for Held<T> {
    ghost Value = { T };

    ghost coded = { T.code };

    ghost view = { λ h. h.inner.value };
}

impl<T> Held<T> {
    /// The value, held, or the value itself where there is no memory for that.
    pub fn new(alloc: Global, value: T) -> Result<Held<T>, T>
        ensures held { IfOk result (λ h. h ≡ value) }
        ensures back { IfErr result (λ x. x ≡ value) }
    {
        match Box::new(alloc, value) {
            Ok(inner) => Ok(Held { inner }),
            Err(failed) => Err(failed.value),
        }
    }

    /// The value.
    pub fn into_inner(self) -> T
        ensures { result ≡ self }
    {
        let Held { inner } = self;
        Box::into_inner(inner)
    }
}
