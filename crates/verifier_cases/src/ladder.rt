//! The text of a function of many blocks.

use std::alloc::{AllocError, Global};

/// The value that the operation of a block uses: the one that the block in front gives, or, at the block of this place, the one of the last block.
#[derive(Clone, Copy)]
pub struct Ladder {
    /// How many blocks there are.
    pub blocks: u32,
    /// The block that uses the value of the last one, none where it is 0.
    pub reaches_on: u32,
}

impl Ladder {
    fn used(&self, place: u32) -> u32 {
        if place == self.reaches_on {
            self.blocks.saturating_sub(1)
        } else {
            place.saturating_sub(1)
        }
    }
}

fn push_first(out: &mut String) -> Result<(), AllocError> {
    out.push_str("    %0 = \"t.use\"() : () -> i1\n")?;
    out.push_str("    \"cf.br\"()[^bb1] : () -> ()\n")
}

fn push_block(out: &mut String, ladder: Ladder, place: u32) -> Result<(), AllocError> {
    let used = ladder.used(place);
    write!(
        out,
        "  ^bb{place}:\n    %{place} = \"t.use\"(%{used}) : (i1) -> i1\n"
    )?;
    let behind = place.saturating_add(1);
    if behind >= ladder.blocks {
        return out.push_str("    \"func.return\"() : () -> ()\n");
    }
    write!(out, "    \"cf.cond_br\"(%{place})[^bb{behind}, ^bb1]")?;
    out.push_str(" <{operandSegmentSizes = array<i32: 1, 0, 0>}> : (i1) -> ()\n")
}

/// A function of blocks that stand like rungs: each uses one value, and goes on to the next block or back to the second.
pub fn text_of(alloc: Global, ladder: Ladder) -> Result<String, AllocError> {
    let mut out = String::new(alloc);
    out.push_str("\"func.func\"() <{function_type = () -> (), sym_name = \"f\"}> ({\n")?;
    push_first(&mut out)?;
    for place in 1..ladder.blocks {
        push_block(&mut out, ladder, place)?;
    }
    out.push_str("  }) : () -> ()\n")?;
    Ok(out)
}
