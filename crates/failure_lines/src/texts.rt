//! The texts of both lines.

ghost use Rattle.std.specs.Prelude.{◌≡◌, ◌++◌, ◌-◌, IfOk, OnOk, codes, flat_map, length, take, drop};
ghost use Rattle.tree_text.specs.NameText.{byte_text, string_text};
ghost use Rattle.ordered_diags.specs.Failures.{error_text, note_text, symbol_text};
ghost use Rattle.failure_lines.specs.Units.{failure_of};

use std::alloc::Global;
use tree_model::{Bytes, NoMemory};
use tree_text::{put_name, put_string};

/// A function and a pass that failed on it.
#[derive(Clone, Copy, Debug)]
pub struct FailedUnit<'a> {
    /// The positions of the function in the module and of the pass in its stage.
    pub function: u32,
    pub pass: u32,
    /// The name of the function, empty where it has none, and that of the pass.
    pub function_name: &'a [u8],
    pub pass_name: &'a [u8],
    /// The number of the operation that isn't legalised, and its name.
    pub operation: u32,
    pub operation_name: &'a [u8],
    /// How many patterns have that name as their root.
    pub patterns: u32,
}

fn put_symbol(out: &mut Bytes, name: &[u8]) -> Result<(), NoMemory>
    ensures { OnOk result (out.new ≡ out.old ++ symbol_text name.now) }
{
    out.put(b"@")?;
    put_name(out, name)?;
    Ok(())
}

/// What stands between the quotes of a string.
fn inner(quoted: &[u8]) -> &[u8]
    ensures { result.now ≡ take (length quoted.now - 2) (drop 1 quoted.now) }
{
    match quoted {
        [_, inner @ .., _] => inner,
        _ => &[],
    }
}

#[tactic(auto, using(crate::proofs::TextLaws::inner_of))]
fn put_escaped(alloc: Global, out: &mut Bytes, name: &[u8]) -> Result<(), NoMemory>
    ensures { OnOk result (out.new ≡ out.old ++ flat_map byte_text name.now) }
{
    let mut quoted = Bytes::new(alloc);
    put_string(&mut quoted, name)?;
    out.put(inner(quoted.as_slice()))
}

/// The first line.
pub fn error_line(alloc: Global, unit: &FailedUnit<'_>) -> Result<Bytes, NoMemory>
    ensures { IfOk result (λ text. text ≡ error_text (failure_of unit.now)) }
{
    let mut out = Bytes::new(alloc);
    out.put(b"error: ")?;
    put_symbol(&mut out, unit.function_name)?;
    out.put(b": ")?;
    out.put(unit.pass_name)?;
    out.put(b": operation ")?;
    out.put_number(u64::from(unit.operation))?;
    out.put(b" '")?;
    put_escaped(alloc, &mut out, unit.operation_name)?;
    out.put(b"' is not legalised")?;
    Ok(out)
}

/// The second line.
pub fn note_line(alloc: Global, unit: &FailedUnit<'_>) -> Result<Bytes, NoMemory>
    ensures { IfOk result (λ text. text ≡ note_text (failure_of unit.now)) }
{
    let mut out = Bytes::new(alloc);
    out.put(b"note: patterns with this root: ")?;
    out.put_number(u64::from(unit.patterns))?;
    Ok(out)
}
