//! Laws of the verifier, each the contract of a function that does nothing.

ghost use Rattle.ir_verifier.specs.Promises.{OneVerdict, PassesVerified};

/// A formed module passes exactly where it is verified.
pub fn law_passes_verified()
    ensures { PassesVerified }
{}

/// A module doesn't pass where it fails, and it fails in one way.
pub fn law_one_verdict()
    ensures { OneVerdict }
{}
