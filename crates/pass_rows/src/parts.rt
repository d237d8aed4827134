//! The sets that a pass is made of.

ghost use Rattle.std.specs.Prelude.{◌≡◌, length};
ghost use Rattle.pattern_model.specs.PassTable.{pass_of, patterns_of};
ghost use Rattle.pass_rows.specs.Parts.{patterns_at, patterns_in};

use pipeline_text::PassName;

/// A set of patterns.
#[derive(Clone, Copy, PartialEq, Eq, Debug)]
pub enum Part {
    Scf,
    Expand,
    Arith,
    Cf,
    Memref,
    /// Functions, calls and returns.
    Func,
    /// Casts.
    Cast,
}

/// The sets of a pass, in the order of its table. `reconcile-unrealized-casts` has none.
pub fn parts_of(pass: PassName) -> &'static [Part]
    ensures { patterns_at result.now ≡ patterns_of (pass_of pass) }
{
    match pass {
        PassName::ConvertScfToCf => &[Part::Scf],
        PassName::ArithExpand => &[Part::Expand],
        PassName::ConvertArithToLlvm => &[Part::Arith],
        PassName::ConvertCfToLlvm => &[Part::Cf],
        PassName::ConvertFuncToLlvm => &[Part::Func],
        PassName::FinalizeMemrefToLlvm => &[Part::Memref],
        PassName::ReconcileUnrealizedCasts => &[],
        PassName::FullConvertToLlvm => &[
            Part::Scf,
            Part::Expand,
            Part::Arith,
            Part::Cf,
            Part::Memref,
            Part::Func,
            Part::Cast,
        ],
    }
}

/// How many patterns a set has.
pub fn size(part: Part) -> u32
    ensures { result ≡ length (patterns_in part) }
{
    match part {
        Part::Scf => 5,
        Part::Expand => 5,
        Part::Arith => 25,
        Part::Cf => 4,
        Part::Memref => 8,
        Part::Func => 3,
        Part::Cast => 1,
    }
}
