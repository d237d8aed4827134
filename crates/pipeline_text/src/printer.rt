//! Prints a pipeline.

ghost use Rattle.std.specs.Prelude.{◌≡◌, OnOk, IfOk, ◌++◌, List, [], ◌∷◌, map, flat_map, codes};
ghost use Rattle.pipeline_text.specs.Printing.{anchor_text, joined, option_text, printed, stage_text, use_text};

use crate::lexer::{kind_text, pass_text};
use crate::pass::{Anchor, PassUse, Pipeline, Stage};
use crate::token::Kind;
use std::alloc::Global;
use tree_model::{Bytes, NoMemory};

/// The text of a pipeline: no blanks, and an option only where the width is 32.
#[tactic(auto, unfolding(crate::specs::Printing::printed))]
pub fn print_pipeline(alloc: Global, p: &Pipeline) -> Result<Bytes, NoMemory>
    ensures { IfOk result (λ text. text ≡ printed p.now.stages) }
{
    let mut out = Bytes::new(alloc);
    out.put(b"builtin.module(")?;
    write_stages(&mut out, p.stages.as_slice())?;
    out.put(b")")?;
    Ok(out)
}

fn write_stages(out: &mut Bytes, stages: &[Stage]) -> Result<(), NoMemory>
    ensures { OnOk result (out.new ≡ out.old ++ joined (map stage_text stages.now)) }
{
    if let Some((first, others)) = stages.split_first() {
        write_stage(out, first)?;
        write_more_stages(out, others)?;
    }
    Ok(())
}

fn write_more_stages(out: &mut Bytes, stages: &[Stage]) -> Result<(), NoMemory>
    ensures { OnOk result (out.new ≡ out.old ++ flat_map (λ u. codes "," ++ u) (map stage_text stages.now)) }
{
    'each: for stage in stages {
        out.put_byte(b',')?;
        write_stage(out, stage)?;
    }
    Ok(())
}

fn write_stage(out: &mut Bytes, stage: &Stage) -> Result<(), NoMemory>
    ensures { OnOk result (out.new ≡ out.old ++ stage_text stage.now) }
{
    match stage {
        Stage::Whole(pass) => write_use(out, *pass),
        Stage::Each(anchor, passes) => write_nested(out, *anchor, passes.as_slice()),
    }
}

fn write_nested(out: &mut Bytes, anchor: Anchor, passes: &[PassUse]) -> Result<(), NoMemory>
    ensures { OnOk result (out.new ≡ out.old ++ anchor_text anchor ++ codes "(" ++ joined (map use_text passes.now) ++ codes ")") }
{
    out.put(anchor_text(anchor))?;
    out.put(b"(")?;
    write_uses(out, passes)?;
    out.put(b")")?;
    Ok(())
}

fn anchor_text(anchor: Anchor) -> &'static [u8]
    ensures { result.now ≡ anchor_text anchor }
{
    kind_text(Kind::OnEach(anchor))
}

fn write_uses(out: &mut Bytes, passes: &[PassUse]) -> Result<(), NoMemory>
    ensures { OnOk result (out.new ≡ out.old ++ joined (map use_text passes.now)) }
{
    if let Some((first, others)) = passes.split_first() {
        write_use(out, *first)?;
        write_more_uses(out, others)?;
    }
    Ok(())
}

fn write_more_uses(out: &mut Bytes, passes: &[PassUse]) -> Result<(), NoMemory>
    ensures { OnOk result (out.new ≡ out.old ++ flat_map (λ u. codes "," ++ u) (map use_text passes.now)) }
{
    'each: for pass in passes {
        out.put_byte(b',')?;
        write_use(out, *pass)?;
    }
    Ok(())
}

fn write_use(out: &mut Bytes, pass: PassUse) -> Result<(), NoMemory>
    ensures { OnOk result (out.new ≡ out.old ++ use_text pass) }
{
    out.put(pass_text(pass.pass))?;
    write_option(out, pass.bits)?;
    Ok(())
}

fn write_option(out: &mut Bytes, bits: u32) -> Result<(), NoMemory>
    ensures { OnOk result (out.new ≡ out.old ++ option_text bits) }
{
    if bits == 32 {
        out.put(b"{index-bitwidth=32}")?;
    }
    Ok(())
}
