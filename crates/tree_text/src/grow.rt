//! Single steps of a text that only grows, which the larger ones are made of.
#![tactic(auto, using(crate::proofs::GrewLaws::put_laws))]

ghost use Rattle.std.specs.Prelude.{◌≡◌, ◌++◌, OnOk};
ghost use Rattle.std.specs.Fmt.{decimal, signed_decimal};
ghost use Rattle.tree_text.specs.Grew.{Grew};

use tree_model::{Bytes, NoMemory};

pub fn add(out: &mut Bytes, text: &[u8]) -> Result<(), NoMemory>
    ensures ok { OnOk result (out.new ≡ out.old ++ text.now) }
    ensures grew { Grew out.old out.new }
{
    out.put(text)?;
    Ok(())
}

pub fn add_number(out: &mut Bytes, number: u64) -> Result<(), NoMemory>
    ensures ok { OnOk result (out.new ≡ out.old ++ decimal number) }
    ensures grew { Grew out.old out.new }
{
    out.put_number(number)?;
    Ok(())
}

pub fn add_signed(out: &mut Bytes, number: i64) -> Result<(), NoMemory>
    ensures ok { OnOk result (out.new ≡ out.old ++ signed_decimal number) }
    ensures grew { Grew out.old out.new }
{
    out.put_signed(number)?;
    Ok(())
}
